//! What each answer is in numbers.
ghost use Rattle.std.specs.Prelude.{◌≡◌};
ghost use Rattle.std.specs.Result.{ForOk, MatchResult};
ghost use Rattle.rules.specs.Refusals.{number};
ghost use Rattle.rules.specs.Answers.{refused as refused_with, placed as placed_at};
ghost use Rattle.rules.specs.Answers.{adjusted as adjusted_to, of_ownership, of_reading};
ghost use Rattle.door.specs.Numbers.{kind_number, said_as, InNumbers, message_parts, in_parts};

use crate::{Called, Read, Said};
use rules::{Adjusted, Done, Message, Placed, Refusal, SubrateChange, Subrates};
use text::refusal_number;

// The kinds of an answer, numbered for ever, as C knows them: a later one comes at the end.
#[derive(Clone, Copy)]
pub enum Kind {
    Refused = 1,
    Placed = 2,
    Dropped = 3,
    Kept = 4,
    Grown = 5,
    Shrunk = 6,
    Tight = 7,
    Owner = 8,
    Idle = 9,
    Slots = 10,
    Saved = 11,
    Loaded = 12,
    Reported = 13,
    Default = 14,
    Request = 15,
    Change = 16,
    Wrote = 17,
    Tidied = 18,
}

// An answer with one value, or with none.
pub fn say(kind: Kind, first: u32) -> Said
    ensures { result ≡ said_as (kind_number kind) first 0 0 }
{
    Said {
        kind: kind as u32,
        first,
        second: 0,
        third: 0,
    }
}

pub fn refused(r: Refusal) -> Said
    ensures { InNumbers (refused_with (number r)) result }
{
    say(Kind::Refused, refusal_number(r))
}

pub fn placed(p: Placed) -> Said
    ensures { InNumbers (placed_at p) result }
{
    Said {
        kind: Kind::Placed as u32,
        first: u32::from(p.factor),
        second: u32::from(p.anchor),
        third: u32::from(p.length),
    }
}

pub fn adjusted(a: Adjusted) -> Said
    ensures { InNumbers (adjusted_to a) result }
{
    match a {
        Adjusted::Kept(length) => say(Kind::Kept, u32::from(length)),
        Adjusted::Grown(length) => say(Kind::Grown, u32::from(length)),
        Adjusted::Shrunk(length) => say(Kind::Shrunk, u32::from(length)),
        Adjusted::Tight(length) => say(Kind::Tight, u32::from(length)),
    }
}

pub fn owned(answer: Option<u8>) -> Said
    ensures { InNumbers (of_ownership answer) result }
{
    match answer {
        Some(handle) => say(Kind::Owner, u32::from(handle)),
        None => say(Kind::Idle, 0),
    }
}

fn message_parts(message: Message) -> Read
    ensures { result ≡ message_parts message }
{
    match message {
        Message::Default(subrates) => Read {
            said: say(Kind::Default, 0),
            handle: 0,
            subrates,
            change: SubrateChange::default(),
        },
        Message::Request(handle, subrates) => Read {
            said: say(Kind::Request, 0),
            handle,
            subrates,
            change: SubrateChange::default(),
        },
        Message::Change(change) => Read {
            said: say(Kind::Change, 0),
            handle: 0,
            subrates: Subrates::default(),
            change,
        },
    }
}

pub fn reading(answer: Result<Message, Refusal>) -> Read
    ensures { result ≡ in_parts (of_reading answer) }
{
    match answer {
        Ok(message) => message_parts(message),
        Err(r) => Read {
            said: refused(r),
            handle: 0,
            subrates: Subrates::default(),
            change: SubrateChange::default(),
        },
    }
}

// What a call has done, with the answer in numbers: what its value says, or the refusal's number.
// The answer is put into numbers before the schedule is taken:
// the other way round the schedule is copied once more.
pub fn called<V, F: FnOnce(V) -> Said>(done: Done<Result<V, Refusal>>, says: F) -> Called
    requires { ForOk done.answer (F.pre says) }
    ensures said { MatchResult done.answer (λ v. F.post says v result.said)
        (λ r. InNumbers (refused_with (number r)) result.said) }
    ensures schedule { result.schedule ≡ done.schedule }
{
    let said = done.answer.map_or_else(refused, says);
    Called {
        said,
        schedule: done.schedule,
    }
}
