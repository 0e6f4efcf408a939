//! The list that a line lends: before the call, and printed after it; and a line that lends none.
ghost use Rattle.std.specs.Prelude.{◌≡◌, ◌++◌, ◌+◌, ◌*◌, ◌≤◌, length};
ghost use Rattle.rules.specs.Text.{text as text_of};
ghost use Rattle.rules.specs.Words.{spaced};
ghost use Rattle.rules.specs.Good.{Good};
ghost use Rattle.text.specs.Promises.{PutsWithin};
ghost use Rattle.answer.specs.Promises.{longest_count};
ghost use Rattle.lists.specs.Lines.{longest_entry, most_moves, longest_line};
ghost use Rattle.lists.specs.Lines.{blank_list, bad_printed};
ghost use Rattle.lists.specs.Promises.{Makes, PutsDone};

use answer::put_counted;
use order::Performed;
use rules::{Done, Refusal, Schedule};
use text::{put_row, put_word};

// What an entry holds that no call has written: untouched of specs/Lines.
const UNTOUCHED: u32 = 2_779_096_485;

/// Each entry holds A5A5A5A5 hexadecimal.
pub fn blank(list: &mut [u32])
    ensures { list.new ≡ blank_list (length list.old) }
{
    list.fill(UNTOUCHED);
}

// The list behind an answer's words, and the end of the line.
pub fn put_lent(out: &mut [u8], at: usize, list: &[u32]) -> usize
    requires { at + (longest_entry * length list.now + 1) ≤ length out.old }
    ensures { PutsWithin (longest_entry * length list.now + 1) out.old at
        (spaced list.now ++ text_of "\n") out.new result }
{
    let end = put_row(out, at, list);
    put_word(out, end, b"\n")
}

// The line of a call that filled a list: the answer, and the list afterwards.
pub fn put_done(
    done: Done<Result<u8, Refusal>>,
    word: &[u8],
    list: &[u32],
    out: &mut [u8],
) -> Performed
    requires word { length word.now ≤ longest_count }
    requires room { (length list.now ≤ most_moves) × (longest_line ≤ length out.old) }
    ensures { PutsDone done word.now list.now out.old out.new result }
{
    let at = put_counted(out, 0, word, done.answer.map(u32::from));
    let count = put_lent(out, at, list);
    Performed {
        schedule: done.schedule,
        count,
    }
}

// A line that asks for nothing.
pub fn perform_bad(s: Schedule, out: &mut [u8]) -> Performed
    requires { Good s × (longest_line ≤ length out.old) }
    ensures { Makes (bad_printed s) out.old out.new result }
{
    let count = put_word(out, 0, b"bad\n");
    Performed { schedule: s, count }
}
