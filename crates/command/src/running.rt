//! A whole text, line by line.
ghost use Rattle.std.specs.Prelude.{◌+◌, ◌*◌, ◌≤◌, length};
ghost use Rattle.rules.specs.Good.{Good};
ghost use Rattle.rules.specs.Program.{most_output};
ghost use Rattle.command.specs.Promises.{Carries, Prints, Runs};

use crate::Output;
use crate::obeying::obey;
use answer::put_reply;
use line::says;
use rules::{MOST_INPUT, MOST_OUTPUT, Schedule};
use schedule::fresh;
use text::{put_word, split_line};

// Carries a line out on the lent schedule, and writes what it prints; then comes the place after
// that. By value a schedule would be copied for each line, a bad one too (docs/BENCH.md).
fn carry_out(s: &mut Schedule, line: &[u8], out: &mut [u8], at: usize) -> usize
    requires { Good s.old × (at + 4 * (length line.now + 1) ≤ length out.old) }
    ensures { Carries s.old line.now out.old at out.new s.new result }
{
    match says(line) {
        None => put_word(out, at, b"bad\n"),
        Some(command) => {
            let done = obey(*s, command);
            *s = done.schedule;
            put_reply(out, at, done.answer)
        }
    }
}

// Answers every line of the input: writes what it prints from the buffer's start; then comes how many bytes that is.
fn answer_all(input: &[u8], out: &mut [u8]) -> usize
    requires { most_output ≤ length out.old }
    ensures { Prints input.now out.old out.new result }
{
    if MOST_INPUT < input.len() {
        return put_word(out, 0, b"long\n");
    }
    let mut s = fresh();
    let mut at = 0;
    let mut rest = input;
    while let Some((line, later)) = split_line(rest) {
        at = carry_out(&mut s, line, out, at);
        rest = later;
    }
    // a tail is a bad line
    if rest.is_empty() {
        at
    } else {
        put_word(out, at, b"bad\n")
    }
}

/// The command program: what an input prints. Whatever the input is, that fits.
pub fn run(input: &[u8]) -> Output
    ensures { Runs input.now result }
{
    let mut bytes = [0u8; MOST_OUTPUT];
    let count = answer_all(input, &mut bytes);
    Output { bytes, count }
}
