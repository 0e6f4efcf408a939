//! The calls that change a schedule. A schedule is a value: it goes in, and what the call leaves comes back.
#![tactic(auto)]

ghost use Rattle.std.specs.Prelude.{◌≡◌};
ghost use Rattle.std.specs.Borrow.{MutBor};
ghost use Rattle.rules.specs.declared.Schedule.{Schedule};

mod admission;
mod dropping;
mod reporting;

pub use admission::admit;
pub use dropping::drop;
pub use reporting::report;
use rules::{Done, Schedule};
pub use run::fresh;

// A call's step on a schedule taken by value: its answer, beside what the step leaves.
fn done<A, F: FnOnce(&mut Schedule) -> A>(mut s: Schedule, step: F) -> Done<A>
    requires { (p : MutBor Schedule) → p.now ≡ s → F.pre step p }
    ensures { (p q : MutBor Schedule) × (p.now ≡ s) × (q.now ≡ result.schedule) × F.post step p result.answer q }
{
    let answer = step(&mut s);
    Done {
        answer,
        schedule: s,
    }
}
