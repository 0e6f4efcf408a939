//! The call that a command makes.
ghost use Rattle.rules.specs.Good.{Good};
ghost use Rattle.command.specs.Promises.{Obeys};

use questions::{anchor, owner};
use rules::{Command, Done, LEAST_INTERVAL, Reply, Schedule};
use schedule::{admit, drop, report};

/// Makes the call; one interval is a range from the least, and a question leaves the schedule as it is.
pub fn obey(s: Schedule, command: Command) -> Done<Reply>
    requires { Good s }
    ensures { Obeys s command result }
{
    match command {
        Command::Admit {
            handle,
            interval,
            floor,
            ceiling,
        } => admit(s, handle, LEAST_INTERVAL, interval, floor, ceiling).map(Reply::Admission),
        Command::AdmitRange {
            handle,
            smallest,
            largest,
            floor,
            ceiling,
        } => admit(s, handle, smallest, largest, floor, ceiling).map(Reply::Admission),
        Command::Drop(handle) => drop(s, handle).map(Reply::Dropping),
        Command::Report { handle, sample } => report(s, handle, sample).map(Reply::Reporting),
        Command::Owner(block) => Done {
            answer: Reply::Ownership(owner(s, block)),
            schedule: s,
        },
        Command::Anchor { handle, block } => Done {
            answer: Reply::Distance(anchor(s, handle, block)),
            schedule: s,
        },
    }
}
