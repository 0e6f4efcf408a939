//! The line `reports`: what it asks for, the call, and what it prints.
ghost use Rattle.std.specs.Prelude.{◌≡◌, true, ◌≤◌, length, take};
ghost use Rattle.rules.specs.Bytes.{same};
ghost use Rattle.rules.specs.Text.{text as text_of};
ghost use Rattle.rules.specs.Good.{Good};
ghost use Rattle.lists.specs.Lines.{most_entries, longest_row, longest_line, reports_printed};
ghost use Rattle.lists.specs.Promises.{ReadsAsked, Makes, PerformsReports};

use crate::lending::{blank, perform_bad, put_done};
use crate::{LONGEST_ROW, MOST_ENTRIES};
use order::Performed;
use reports::report_pairs;
use rules::Schedule;
use text::read_row;

// The place after `reports`: the word's length.
const AFTER_REPORTS: usize = 7;

/// What a line of reports asks for: how many entries its list has, and how many numbers its
/// reports.
#[derive(Clone, Copy)]
pub struct Asked {
    pub entries: usize,
    pub count: usize,
}

/// What a line asks for, if it is no bad line; the numbers of its reports are in the lent slice,
/// behind that of its entries.
pub fn asked_of(line: &[u8], numbers: &mut [u32]) -> Option<Asked>
    requires { (same (take (length (text_of "reports")) line.now) (text_of "reports") ≡ true)
        × (longest_row ≤ length numbers.old) }
    ensures { ReadsAsked line.now numbers.new result }
{
    let count = read_row(line, AFTER_REPORTS, numbers)?;
    // no entries, or a sample that is missing
    if count % 2 == 0 {
        return None;
    }
    if LONGEST_ROW < count {
        return None;
    }
    // a u32 as a length, which `From` does not give
    let entries = numbers[0] as usize;
    if MOST_ENTRIES < entries {
        return None;
    }
    Some(Asked {
        entries,
        count: count - 1,
    })
}

// Makes the reports that the numbers say, and writes the line: the answer, and the list afterwards.
fn make_reports(s: Schedule, numbers: &[u32], list: &mut [u32], out: &mut [u8]) -> Performed
    requires { Good s × (length list.old ≤ most_entries) × (longest_line ≤ length out.old) }
    ensures { Makes (reports_printed s (length list.old) numbers.now) out.old out.new result }
{
    blank(list);
    let done = report_pairs(s, numbers, list);
    put_done(done, b"reported", list, out)
}

/// Performs a line that opens with `reports`: writes what it prints from the buffer's start; the
/// slices are for its numbers and its list.
pub fn perform_reports(
    s: Schedule,
    line: &[u8],
    numbers: &mut [u32],
    list: &mut [u32],
    out: &mut [u8],
) -> Performed
    requires { Good s
        × (same (take (length (text_of "reports")) line.now) (text_of "reports") ≡ true)
        × (longest_row ≤ length numbers.old) × (most_entries ≤ length list.old)
        × (longest_line ≤ length out.old) }
    ensures { PerformsReports s line.now out.old out.new result }
{
    let Some(Asked { entries, count }) = asked_of(line, numbers) else {
        return perform_bad(s, out);
    };
    let end = 1 + count;
    make_reports(s, &numbers[1..end], &mut list[..entries], out)
}
