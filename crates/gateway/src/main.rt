//! The command program: reads standard input and prints what the library makes of it.
#![tactic(auto)]

use input::read_all;
use rules::MOST_INPUT;

fn main(rt: HostRuntime) {
    // one byte more than the program takes, so that it can tell that there is more
    let mut buffer = [0u8; MOST_INPUT + 1];
    let Ok(n) = read_all(&mut rt.stdin(), &mut buffer) else {
        let _ = eprintln!(rt; "gateway: standard input cannot be read");
        return;
    };
    let output = command::run(&buffer[..n]);
    let bytes = output.bytes;
    let count = output.count;
    if rt.write_all(&bytes[..count]).is_err() {
        let _ = eprintln!(rt; "gateway: standard output cannot be written");
    }
}
