//! What a line asks for.
ghost use Rattle.std.specs.Prelude.{◌+◌, ◌*◌, ◌≤◌, length};
ghost use Rattle.talk.specs.Promises.{Within, Numbers};

use hexadecimal::{MOST_BUFFER, read_hex};
use rules::{Message, SubrateChange, Subrates};
use text::{is_word, opens, read_row};

// The places after `message` and its space, `default`, `request` and `change`: the words' lengths.
const AFTER_MESSAGE: usize = 8;

const AFTER_DEFAULT: usize = 7;

const AFTER_REQUEST: usize = 7;

const AFTER_CHANGE: usize = 6;

// The most numbers of a line: longest_row of specs/Promises.
const LONGEST_ROW: usize = 7;

/// A message to read from so many bytes of the lent buffer, one to write into so many, a bad line,
/// or one that is none of these: four things to do, so no `Option` of a `Result`.
#[derive(Clone, Copy)]
pub enum Asked {
    Read(usize),
    Write(usize, Message),
    Bad,
    Other,
}

// The numbers behind a word, so many, each of two bytes; the first is a buffer's size.
fn numbers_of(line: &[u8], at: usize, count: usize) -> Option<[u16; LONGEST_ROW]>
    requires { at ≤ length line.now }
    ensures { Numbers result }
{
    let mut row = [0u32; LONGEST_ROW];
    if read_row(line, at, &mut row)? != count {
        return None;
    }
    let mut numbers = [0u16; LONGEST_ROW];
    for (place, &n) in numbers.iter_mut().zip(&row) {
        *place = u16::try_from(n).ok()?;
    }
    if MOST_BUFFER < u32::from(numbers[0]) {
        return None;
    }
    Some(numbers)
}

// The five numbers of a command from a place on.
fn subrates_at(n: &[u16; LONGEST_ROW], at: usize) -> Subrates
    requires { at + 5 ≤ length n.now }
{
    Subrates {
        min: n[at],
        max: n[at + 1],
        latency: n[at + 2],
        continuation: n[at + 3],
        timeout: n[at + 4],
    }
}

fn default_of(line: &[u8]) -> Asked
    requires { 7 ≤ length line.now }
    ensures { Within 0 result }
{
    let Some(n) = numbers_of(line, AFTER_DEFAULT, 6) else {
        return Asked::Bad;
    };
    let v = subrates_at(&n, 1);
    Asked::Write(usize::from(n[0]), Message::Default(v))
}

fn request_of(line: &[u8]) -> Asked
    requires { 7 ≤ length line.now }
    ensures { Within 0 result }
{
    let Some(n) = numbers_of(line, AFTER_REQUEST, 7) else {
        return Asked::Bad;
    };
    let v = subrates_at(&n, 2);
    Asked::Write(usize::from(n[0]), Message::Request(n[1], v))
}

fn change_of(line: &[u8]) -> Asked
    requires { 6 ≤ length line.now }
    ensures { Within 0 result }
{
    let Some(n) = numbers_of(line, AFTER_CHANGE, 7) else {
        return Asked::Bad;
    };
    // a status has one byte
    let Ok(status) = u8::try_from(n[1]) else {
        return Asked::Bad;
    };
    let e = SubrateChange {
        status,
        handle: n[2],
        factor: n[3],
        latency: n[4],
        continuation: n[5],
        timeout: n[6],
    };
    Asked::Write(usize::from(n[0]), Message::Change(e))
}

// Bytes in hexadecimal.
fn bytes_of(line: &[u8], bytes: &mut [u8]) -> Asked
    requires { (8 ≤ length line.now) × (length line.now ≤ 2 * length bytes.old) }
    ensures { Within (length bytes.old) result }
{
    match read_hex(line, AFTER_MESSAGE, bytes) {
        Some(n) => Asked::Read(n),
        None => Asked::Bad,
    }
}

/// What a line asks for, by the word that it opens with; the bytes to read are in the lent buffer.
pub fn asked_of(line: &[u8], bytes: &mut [u8]) -> Asked
    requires { length line.now ≤ 2 * length bytes.old }
    ensures { Within (length bytes.old) result }
{
    if is_word(line, b"message") {
        return Asked::Read(0);
    }
    if opens(line, b"message ") {
        return bytes_of(line, bytes);
    }
    if opens(line, b"default") {
        return default_of(line);
    }
    if opens(line, b"request") {
        return request_of(line);
    }
    if opens(line, b"change") {
        return change_of(line);
    }
    Asked::Other
}
