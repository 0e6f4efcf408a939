//! The calls that change a schedule: it comes by value, and goes back beside the answer.
ghost use Rattle.rules.specs.Good.{Good};
ghost use Rattle.rules.specs.Admit.{admit as admit_rule};
ghost use Rattle.rules.specs.Drop.{drop_handle};
ghost use Rattle.rules.specs.Report.{report as report_rule};
ghost use Rattle.rules.specs.Reports.{report_all};
ghost use Rattle.rules.specs.Tidy.{tidy as tidy_rule};
ghost use Rattle.run.specs.Promises.{Starts};
ghost use Rattle.reports.specs.Pairs.{reports_of};
ghost use Rattle.door.specs.Promises.{Leaves, Lists};

use crate::Called;
use crate::saying::{Kind, adjusted, called, placed, say};
use reports::report_pairs;
use rules::Schedule;
use schedule::{admit, drop, fresh, report};
use tidy::tidy;

/// A fresh schedule: every byte of it is 0.
#[unsafe(no_mangle)]
pub extern "C" fn beak_fresh() -> Schedule
    ensures { Starts result }
{
    fresh()
}

/// Admit.
#[unsafe(no_mangle)]
pub extern "C" fn beak_admitted(
    s: Schedule,
    handle: u32,
    smallest: u32,
    largest: u32,
    floor: u32,
    ceiling: u32,
) -> Called
    requires { Good s }
    ensures { Leaves (admit_rule s handle smallest largest floor ceiling) result }
{
    called(admit(s, handle, smallest, largest, floor, ceiling), placed)
}

/// Drop.
#[unsafe(no_mangle)]
pub extern "C" fn beak_dropped(s: Schedule, handle: u32) -> Called
    requires { Good s }
    ensures { Leaves (drop_handle s handle) result }
{
    called(drop(s, handle), |()| say(Kind::Dropped, 0))
}

/// Report.
#[unsafe(no_mangle)]
pub extern "C" fn beak_reported(s: Schedule, handle: u32, sample: u32) -> Called
    requires { Good s }
    ensures { Leaves (report_rule s handle sample) result }
{
    called(report(s, handle, sample), adjusted)
}

/// The reports that numbers say: handle, sample, handle, sample.
/// The clause reads them by `reports_of`; beak.h lends an array of samples by `&reports->handle`.
#[unsafe(no_mangle)]
pub extern "C" fn beak_reported_all(s: Schedule, numbers: &[u32], answers: &mut [u32]) -> Called
    requires { Good s }
    ensures { Lists (report_all s (reports_of numbers.now) answers.old) answers.new result }
{
    called(
        report_pairs(s, numbers, answers),
        |n| say(Kind::Reported, u32::from(n)),
    )
}

/// Tidy. The moves are numbers too: handle, old anchor, new anchor.
#[unsafe(no_mangle)]
pub extern "C" fn beak_tidied(s: Schedule, moves: &mut [u32]) -> Called
    requires { Good s }
    ensures { Lists (tidy_rule s moves.old) moves.new result }
{
    called(tidy(s, moves), |n| say(Kind::Tidied, u32::from(n)))
}
