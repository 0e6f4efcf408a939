//! The words of an answer, written at a place, and its line.
#![tactic(auto)]

ghost use Rattle.std.specs.Prelude.{ℕ, List, Ok, ◌+◌, ◌≤◌, length, ◌≡◌};
ghost use Rattle.std.specs.Borrow.{MutBor};
ghost use Rattle.std.specs.Result.{MatchResult};
ghost use Rattle.rules.specs.Refusals.{number};
ghost use Rattle.rules.specs.Answers.{
  refused as refused_with,
  placed,
  adjusted,
  message as message_as,
  of_admission,
  of_dropping,
  of_reporting,
  of_ownership,
  of_distance,
  of_reading,
  of_reply,
};
ghost use Rattle.rules.specs.Messages.{subrate_values, change_values};
ghost use Rattle.rules.specs.Words.{words_of, longest_answer, longest_message};
ghost use Rattle.text.specs.Promises.{PutsWithin, longest_refusal};
ghost use Rattle.answer.specs.Promises.{longest_count, PutsWords, PutsCounted, PutsAnswer};

use rules::{Adjusted, Message, Placed, Refusal, Reply, SubrateChange, Subrates};
use text::{put_count, put_refused, put_row, put_spaced, put_word};

// Not by Display and `write!`: their clauses say what is written where it is Ok, and no clause
// says when that is; these write their bytes always (PutsWords).

// The numbers of a command, and those of an event behind its status.
fn subrate_values(v: Subrates) -> [u32; 5]
    ensures { result ≡ subrate_values v }
{
    [v.min, v.max, v.latency, v.continuation, v.timeout].map(u32::from)
}

fn change_values(e: SubrateChange) -> [u32; 5]
    ensures { result ≡ change_values e }
{
    [e.handle, e.factor, e.latency, e.continuation, e.timeout].map(u32::from)
}

fn put_placed(out: &mut [u8], at: usize, p: Placed) -> usize
    requires { at + longest_answer ≤ length out.old }
    ensures { PutsWords out.old at (placed p) out.new result }
{
    let a = put_word(out, at, b"ok");
    let b = put_spaced(out, a, u32::from(p.factor));
    let c = put_spaced(out, b, u32::from(p.anchor));
    put_spaced(out, c, u32::from(p.length))
}

// What is put for an answer: what `put` puts for its value, or the words of its refusal.
fn put_or_refused<T, F: FnOnce(&mut [u8], T) -> usize>(
    out: &mut [u8],
    at: usize,
    answer: Result<T, Refusal>,
    put: F,
) -> usize
    requires room { at + longest_refusal ≤ length out.old }
    requires called { (p : MutBor (List ℕ)) (v : T) → answer ≡ Ok v → p.now ≡ out.old → F.pre put p v }
    ensures { MatchResult answer
        (λ v. (p q : MutBor (List ℕ)) × (p.now ≡ out.old) × (q.now ≡ out.new) × F.post put p v result q)
        (λ r. PutsWithin longest_refusal out.old at (words_of (refused_with (number r))) out.new result) }
{
    match answer {
        Ok(v) => put(out, v),
        Err(r) => put_refused(out, at, r),
    }
}

fn put_admission(out: &mut [u8], at: usize, answer: Result<Placed, Refusal>) -> usize
    requires { at + longest_answer ≤ length out.old }
    ensures { PutsWords out.old at (of_admission answer) out.new result }
{
    put_or_refused(out, at, answer, |out, p| put_placed(out, at, p))
}

#[tactic(auto, using(text::proofs::Putting::within_all), unfolding(rules::specs::Words::words_of))]
fn put_dropping(out: &mut [u8], at: usize, answer: Result<(), Refusal>) -> usize
    requires { at + longest_answer ≤ length out.old }
    ensures { PutsWords out.old at (of_dropping answer) out.new result }
{
    put_or_refused(out, at, answer, |out, ()| put_word(out, at, b"ok"))
}

#[tactic(auto, unfolding(rules::specs::Words::words_of))]
fn put_adjusted(out: &mut [u8], at: usize, a: Adjusted) -> usize
    requires { at + longest_answer ≤ length out.old }
    ensures { PutsWords out.old at (adjusted a) out.new result }
{
    match a {
        Adjusted::Kept(length) => put_count(out, at, b"kept", u32::from(length)),
        Adjusted::Grown(length) => put_count(out, at, b"grown", u32::from(length)),
        Adjusted::Shrunk(length) => put_count(out, at, b"shrunk", u32::from(length)),
        Adjusted::Tight(length) => put_count(out, at, b"tight", u32::from(length)),
    }
}

fn put_reporting(out: &mut [u8], at: usize, answer: Result<Adjusted, Refusal>) -> usize
    requires { at + longest_answer ≤ length out.old }
    ensures { PutsWords out.old at (of_reporting answer) out.new result }
{
    put_or_refused(out, at, answer, |out, a| put_adjusted(out, at, a))
}

#[tactic(auto, using(text::proofs::Putting::within_all), unfolding(rules::specs::Words::words_of))]
fn put_ownership(out: &mut [u8], at: usize, answer: Option<u8>) -> usize
    requires { at + longest_answer ≤ length out.old }
    ensures { PutsWords out.old at (of_ownership answer) out.new result }
{
    match answer {
        Some(handle) => put_count(out, at, b"owner", u32::from(handle)),
        None => put_word(out, at, b"idle"),
    }
}

/// The words of an answer that is a number: its word and the number, or the refusal.
pub fn put_counted(out: &mut [u8], at: usize, word: &[u8], answer: Result<u32, Refusal>) -> usize
    requires room { at + longest_answer ≤ length out.old }
    requires word { length word.now ≤ longest_count }
    ensures { PutsCounted out.old at word.now answer out.new result }
{
    put_or_refused(out, at, answer, |out, n| put_count(out, at, word, n))
}

// The words of a message.
fn put_message(out: &mut [u8], at: usize, message: Message) -> usize
    requires { at + longest_message ≤ length out.old }
    ensures { PutsWithin longest_message out.old at (words_of (message_as message)) out.new result }
{
    match message {
        Message::Default(v) => {
            let a = put_word(out, at, b"default");
            put_row(out, a, &subrate_values(v))
        }
        Message::Request(handle, v) => {
            let a = put_count(out, at, b"request", u32::from(handle));
            put_row(out, a, &subrate_values(v))
        }
        Message::Change(e) => {
            let a = put_count(out, at, b"change", u32::from(e.status));
            put_row(out, a, &change_values(e))
        }
    }
}

/// The words of a reading's answer.
pub fn put_reading(out: &mut [u8], at: usize, answer: Result<Message, Refusal>) -> usize
    requires { at + longest_message ≤ length out.old }
    ensures { PutsWithin longest_message out.old at (words_of (of_reading answer)) out.new result }
{
    put_or_refused(
        out,
        at,
        answer,
        |out, message| put_message(out, at, message),
    )
}

// The words of a command's answer.
#[tactic(auto, unfolding(rules::specs::Words::words_of))]
fn put_words(out: &mut [u8], at: usize, reply: Reply) -> usize
    requires { at + longest_answer ≤ length out.old }
    ensures { PutsWords out.old at (of_reply reply) out.new result }
{
    match reply {
        Reply::Admission(answer) => put_admission(out, at, answer),
        Reply::Dropping(answer) => put_dropping(out, at, answer),
        Reply::Reporting(answer) => put_reporting(out, at, answer),
        Reply::Ownership(answer) => put_ownership(out, at, answer),
        Reply::Distance(answer) => put_counted(out, at, b"slots", answer),
    }
}

/// The line of a command's answer.
pub fn put_reply(out: &mut [u8], at: usize, reply: Reply) -> usize
    requires { at + longest_answer ≤ length out.old }
    ensures { PutsAnswer out.old at (of_reply reply) out.new result }
{
    let a = put_words(out, at, reply);
    put_word(out, a, b"\n")
}
