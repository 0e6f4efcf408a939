//! The probe: performs a script line by line, for tests and for the people who keep the fleet running.
#![tactic(auto)]

ghost use Rattle.std.specs.Prelude.{◌≤◌, length};
ghost use Rattle.rules.specs.Good.{Good};
ghost use Rattle.script.specs.Performing.{most_printed};

use input::read_all;
use lists::{LONGEST_ROW, MOST_ENTRIES, MOST_MOVES, perform_reports, perform_tidy};
use order::Performed;
use rules::Schedule;
use schedule::fresh;
use script::perform;
use std::io;
use talk::perform_message;
use text::{opens, split_line};

// Performs a line: one that lends a list of numbers, one of a message, or any other.
fn perform_line(s: Schedule, line: &[u8], bytes: &mut [u8], out: &mut [u8]) -> Performed
    requires { Good s × (length line.now ≤ 65536) × (32768 ≤ length bytes.old) × (most_printed ≤ length out.old) }
    ensures { Good result.schedule × (result.count ≤ most_printed) }
{
    if opens(line, b"reports") {
        let mut numbers = [0u32; LONGEST_ROW];
        let mut list = [0u32; MOST_ENTRIES];
        return perform_reports(s, line, &mut numbers, &mut list, out);
    }
    if opens(line, b"tidy") {
        let mut list = [0u32; MOST_MOVES];
        return perform_tidy(s, line, &mut list, out);
    }
    match perform_message(line, bytes, out) {
        Some(count) => Performed { schedule: s, count },
        None => perform(s, line, bytes, out),
    }
}

// Performs each line and writes what it prints; a tail is a bad line.
fn perform_all(rt: &impl Print, script: &[u8]) -> io::Result<()>
    requires { length script.now ≤ 65536 }
{
    let mut bytes = [0u8; 32768];
    let mut out = [0u8; 8192];
    let mut s = fresh();
    let mut rest = script;
    while let Some((line, later)) = split_line(rest) {
        let done = perform_line(s, line, &mut bytes, &mut out);
        rt.write_all(&out[..done.count])?;
        s = done.schedule;
        rest = later;
    }
    if !rest.is_empty() {
        rt.write_all(b"bad\n")?;
    }
    Ok(())
}

fn main(rt: HostRuntime) {
    // one byte more than a script may have
    let mut buffer = [0u8; 65537];
    let Ok(n) = read_all(&mut rt.stdin(), &mut buffer) else {
        let _ = eprintln!(rt; "probe: standard input cannot be read");
        return;
    };
    if 65536 < n {
        let _ = rt.write_all(b"long\n");
        return;
    }
    if perform_all(&rt, &buffer[..n]).is_err() {
        let _ = eprintln!(rt; "probe: standard output cannot be written");
    }
}
