//! Reading: 16, then 17.
ghost use Rattle.std.specs.Prelude.{◌≡◌, ◌+◌, ◌≤◌, length};
ghost use Rattle.rules.specs.Bytes.{number_at};
ghost use Rattle.rules.specs.Messages.{subrates_at, change_at};
ghost use Rattle.hci.specs.Promises.{Reads, Finds, five_at};

use crate::ruling::is_allowed;
use crate::{
    CHANGE_HEAD, CHANGE_SIZE, DEFAULT_HEAD, DEFAULT_SIZE, Five, HEAD_SIZE, REQUEST_HEAD,
    REQUEST_SIZE,
};
use codec::number;
use rules::{Message, Refusal, SubrateChange, Subrates};

// The number in the two bytes from a place on.
fn two_at(bytes: &[u8], at: usize) -> u16
    requires { at + 2 ≤ length bytes.now }
    ensures { result ≡ number_at bytes.now at 2 }
{
    // of two bytes: nothing is lost
    number(bytes, at, 2) as u16
}

// The five numbers that bytes have from a place on.
fn five_at(bytes: &[u8], at: usize) -> Five
    requires { at + 10 ≤ length bytes.now }
    ensures { result ≡ five_at bytes.now at }
{
    Five {
        first: two_at(bytes, at),
        top: two_at(bytes, at + 2),
        latency: two_at(bytes, at + 4),
        continuation: two_at(bytes, at + 6),
        timeout: two_at(bytes, at + 8),
    }
}

// A command's values from a place on.
fn subrates_at(bytes: &[u8], at: usize) -> Subrates
    requires { at + 10 ≤ length bytes.now }
    ensures { result ≡ subrates_at bytes.now at }
{
    Subrates::from(five_at(bytes, at))
}

// An event's values from a place on.
fn change_at(bytes: &[u8], at: usize) -> SubrateChange
    requires { at + 11 ≤ length bytes.now }
    ensures { result ≡ change_at bytes.now at }
{
    let f = five_at(bytes, at + 1);
    SubrateChange {
        // of one byte: nothing is lost
        status: number(bytes, at, 1) as u8,
        handle: f.first,
        factor: f.top,
        latency: f.latency,
        continuation: f.continuation,
        timeout: f.timeout,
    }
}

// The message that bytes are: its size and its head tell which.
fn message_in(bytes: &[u8]) -> Option<Message>
    ensures { Finds bytes.now result }
{
    if bytes.len() < HEAD_SIZE {
        return None;
    }
    match (bytes.len(), number(bytes, 0, HEAD_SIZE)) {
        (DEFAULT_SIZE, DEFAULT_HEAD) => Some(Message::Default(subrates_at(bytes, HEAD_SIZE))),
        (REQUEST_SIZE, REQUEST_HEAD) => Some(Message::Request(
            two_at(bytes, HEAD_SIZE),
            subrates_at(bytes, HEAD_SIZE + 2),
        )),
        (CHANGE_SIZE, CHANGE_HEAD) => Some(Message::Change(change_at(bytes, HEAD_SIZE))),
        _ => None,
    }
}

/// The message that bytes are.
pub fn read_message(bytes: &[u8]) -> Result<Message, Refusal>
    ensures { Reads bytes.now result }
{
    let message = message_in(bytes).ok_or(Refusal::MessageWrong)?;
    if !is_allowed(message) {
        return Err(Refusal::ValuesForbidden);
    }
    Ok(message)
}
