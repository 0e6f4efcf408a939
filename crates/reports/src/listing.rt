//! The list of reports.
ghost use Rattle.rules.specs.Good.{Good};
ghost use Rattle.reports.specs.Promises.{Answers, ReportsAll};

use crate::coding::code_of;
use rules::{Done, MOST_REPORTS, Refusal, Report, Schedule};
use schedule::report;

// What the call answers for so many reports and entries: 13 first, then 14.
fn answer_of(reports: usize, entries: usize) -> Result<u8, Refusal>
    ensures { Answers reports entries result }
{
    if reports > MOST_REPORTS {
        return Err(Refusal::ReportsMany);
    }
    if entries < reports {
        return Err(Refusal::ListShort);
    }
    // at most the most reports: nothing is lost
    Ok(reports as u8)
}

/// Makes the reports of a list, one after the other, and stores each answer's number in the entry of its place.
pub fn report_all(s: Schedule, reports: &[Report], answers: &mut [u32]) -> Done<Result<u8, Refusal>>
    requires { Good s }
    ensures { ReportsAll s reports.now answers.old answers.new result }
{
    let answer = answer_of(reports.len(), answers.len());
    let mut left = s;
    if answer.is_ok() {
        // by index: once an `iter_mut` is over, a proof knows the slice's length alone
        for (i, r) in reports.iter().enumerate() {
            let done = report(left, r.handle, r.sample);
            left = done.schedule;
            answers[i] = code_of(done.answer);
        }
    }
    Done {
        answer,
        schedule: left,
    }
}
