//! The line `tidy`: what it asks for, the call, and what it prints.
ghost use Rattle.std.specs.Prelude.{◌≡◌, true, ◌≤◌, length, take};
ghost use Rattle.rules.specs.Bytes.{same};
ghost use Rattle.rules.specs.Text.{text as text_of};
ghost use Rattle.rules.specs.Good.{Good};
ghost use Rattle.lists.specs.Lines.{most_moves, longest_line, tidy_printed};
ghost use Rattle.lists.specs.Promises.{ReadsTidy, Makes, PerformsTidy};

use crate::MOST_MOVES;
use crate::lending::{blank, perform_bad, put_done};
use order::Performed;
use rules::Schedule;
use text::read_row;
use tidy::tidy;

// The place after `tidy`: the word's length.
const AFTER_TIDY: usize = 4;

/// How many numbers the list has that a line asks for, if it is no bad line.
pub fn tidy_asked(line: &[u8]) -> Option<usize>
    requires { same (take (length (text_of "tidy")) line.now) (text_of "tidy") ≡ true }
    ensures { ReadsTidy line.now result }
{
    let mut sizes = [0u32; 1];
    let count = read_row(line, AFTER_TIDY, &mut sizes)?;
    // a u32 as a length, which `From` does not give
    let n = sizes[0] as usize;
    if count == 0 || MOST_MOVES < n {
        return None;
    }
    Some(n)
}

// Makes the tidy, and writes the line: the answer, and the list afterwards.
fn make_tidy(s: Schedule, list: &mut [u32], out: &mut [u8]) -> Performed
    requires { Good s × (length list.old ≤ most_moves) × (longest_line ≤ length out.old) }
    ensures { Makes (tidy_printed s (length list.old)) out.old out.new result }
{
    blank(list);
    let done = tidy(s, list);
    put_done(done, b"tidied", list, out)
}

/// Performs a line that opens with `tidy`: writes what it prints from the buffer's start; the slice
/// is for its list.
pub fn perform_tidy(s: Schedule, line: &[u8], list: &mut [u32], out: &mut [u8]) -> Performed
    requires { Good s × (same (take (length (text_of "tidy")) line.now) (text_of "tidy") ≡ true)
        × (most_moves ≤ length list.old) × (longest_line ≤ length out.old) }
    ensures { PerformsTidy s line.now out.old out.new result }
{
    let Some(n) = tidy_asked(line) else {
        return perform_bad(s, out);
    };
    make_tidy(s, &mut list[..n], out)
}
