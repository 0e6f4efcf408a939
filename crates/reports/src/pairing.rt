//! The list of reports for callers that have numbers: handle, sample, handle, sample. No other function makes a list of reports.
ghost use Rattle.std.specs.Prelude.{◌≡◌, ◌+◌, ◌*◌, ◌≤◌, length, take};
ghost use Rattle.rules.specs.Good.{Good};
ghost use Rattle.rules.specs.Reports.{most_reports};
ghost use Rattle.reports.specs.Pairs.{reports_of};
ghost use Rattle.reports.specs.Promises.{gathered_of, ReportsAll};

use crate::listing::report_all;
use rules::{Done, MOST_REPORTS, Refusal, Report, Schedule};

// One more than a list may have: of so many the call is refused, whatever they say.
const GATHERED: usize = MOST_REPORTS + 1;

// How many reports of so many numbers are gathered.
fn gathered(numbers: usize) -> usize
    ensures { result ≡ gathered_of numbers }
{
    let n = numbers / 2;
    n.min(GATHERED)
}

// The first reports that the numbers say.
fn gather(numbers: &[u32], n: usize) -> [Report; GATHERED]
    requires { (n ≤ most_reports + 1) × (2 * n ≤ length numbers.now) }
    ensures { take n result ≡ take n (reports_of numbers.now) }
{
    let mut reports = [Report {
        handle: 0,
        sample: 0,
    }; GATHERED];
    let (pairs, _) = numbers.as_chunks::<2>();
    // by index: once an `iter_mut` is over, a proof knows the slice's length alone
    for (i, &[handle, sample]) in pairs[..n].iter().enumerate() {
        reports[i] = Report { handle, sample };
    }
    reports
}

/// Makes the reports that the numbers say; a last odd number is none.
pub fn report_pairs(s: Schedule, numbers: &[u32], answers: &mut [u32]) -> Done<Result<u8, Refusal>>
    requires { Good s }
    ensures { ReportsAll s (reports_of numbers.now) answers.old answers.new result }
{
    let n = gathered(numbers.len());
    let reports = gather(numbers, n);
    report_all(s, &reports[..n], answers)
}
