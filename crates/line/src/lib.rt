//! A line of text: the command that it says.
#![tactic(auto)]

ghost use Rattle.std.specs.Prelude.{◌≡◌};
ghost use Rattle.rules.specs.Commands.{named as named_rule, says as says_rule};

use rules::Command;
use text::{find, read_row};

// As many as the longest form has: most_numbers.
const MOST_NUMBERS: usize = 5;

// The command of a word and its numbers.
#[tactic(auto, using(crate::proofs::Spoken::forms))]
fn named(word: &[u8], numbers: &[u32]) -> Option<Command>
    ensures { result ≡ named_rule word.now numbers.now }
{
    match (word, numbers) {
        (b"admit", &[handle, interval, floor, ceiling]) => Some(Command::Admit {
            handle,
            interval,
            floor,
            ceiling,
        }),
        (b"admit", &[handle, smallest, largest, floor, ceiling]) => Some(Command::AdmitRange {
            handle,
            smallest,
            largest,
            floor,
            ceiling,
        }),
        (b"drop", &[handle]) => Some(Command::Drop(handle)),
        (b"report", &[handle, sample]) => Some(Command::Report { handle, sample }),
        (b"owner", &[block]) => Some(Command::Owner(block)),
        (b"anchor", &[handle, block]) => Some(Command::Anchor { handle, block }),
        _ => None,
    }
}

/// The command that a line is, written out; any other line says none.
pub fn says(line: &[u8]) -> Option<Command>
    ensures { result ≡ says_rule line.now }
{
    let mut numbers = [0u32; MOST_NUMBERS];
    let end = find(line, 0, b' ');
    let count = read_row(line, end, &mut numbers)?;
    named(&line[..end], &numbers[..count])
}
