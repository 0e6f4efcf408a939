//! Writing: 17, then 8.
ghost use Rattle.std.specs.Prelude.{◌≡◌, ◌+◌, ◌≤◌, length};
ghost use Rattle.std.proofs.lemmas.List.Edits.{sets};
ghost use Rattle.rules.specs.Messages.{message_bytes};
ghost use Rattle.hci.specs.Promises.{Writes, five_bytes};

use crate::ruling::is_allowed;
use crate::{
    CHANGE_HEAD, CHANGE_SIZE, DEFAULT_HEAD, DEFAULT_SIZE, Five, HEAD_SIZE, REQUEST_HEAD,
    REQUEST_SIZE,
};
use codec::put_number;
use rules::{Message, Refusal};

// Five numbers, each in two bytes, from a place on.
fn put_five(buffer: &mut [u8], at: usize, f: Five)
    requires { at + 10 ≤ length buffer.old }
    ensures { buffer.new ≡ sets buffer.old at (five_bytes f) }
{
    put_number(buffer, at, 2, u32::from(f.first));
    put_number(buffer, at + 2, 2, u32::from(f.top));
    put_number(buffer, at + 4, 2, u32::from(f.latency));
    put_number(buffer, at + 6, 2, u32::from(f.continuation));
    put_number(buffer, at + 8, 2, u32::from(f.timeout));
}

#[tactic(auto, using(messages::proofs::MessageLaws::size_is))]
fn size_of(message: Message) -> usize
    ensures { result ≡ length (message_bytes message) }
{
    match message {
        Message::Default(_) => DEFAULT_SIZE,
        Message::Request(_, _) => REQUEST_SIZE,
        Message::Change(_) => CHANGE_SIZE,
    }
}

#[tactic(auto, using(messages::proofs::MessageLaws::size_is))]
// The head, what stands before the five numbers, and these.
fn put_message(buffer: &mut [u8], message: Message)
    requires { length (message_bytes message) ≤ length buffer.old }
    ensures { buffer.new ≡ sets buffer.old 0 (message_bytes message) }
{
    match message {
        Message::Default(v) => {
            put_number(buffer, 0, HEAD_SIZE, DEFAULT_HEAD);
            put_five(buffer, HEAD_SIZE, Five::from(v));
        }
        Message::Request(handle, v) => {
            put_number(buffer, 0, HEAD_SIZE, REQUEST_HEAD);
            put_number(buffer, HEAD_SIZE, 2, u32::from(handle));
            put_five(buffer, HEAD_SIZE + 2, Five::from(v));
        }
        Message::Change(e) => {
            put_number(buffer, 0, HEAD_SIZE, CHANGE_HEAD);
            put_number(buffer, HEAD_SIZE, 1, u32::from(e.status));
            put_five(buffer, HEAD_SIZE + 1, Five::from(e));
        }
    }
}

/// Writes a message from the buffer's start, and answers its size.
pub fn write_message(message: Message, buffer: &mut [u8]) -> Result<usize, Refusal>
    ensures { Writes message buffer.old buffer.new result }
{
    if !is_allowed(message) {
        return Err(Refusal::ValuesForbidden);
    }
    let size = size_of(message);
    if buffer.len() < size {
        return Err(Refusal::BufferShort);
    }
    put_message(buffer, message);
    Ok(size)
}
