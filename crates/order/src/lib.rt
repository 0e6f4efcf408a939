//! What a line of a script asks for; and the type of what performing it leaves.
#![tactic(auto)]

ghost use Rattle.std.specs.Prelude.{◌≡◌, true, ◌*◌, ◌≤◌, length, take};
ghost use Rattle.rules.specs.Bytes.{same};
ghost use Rattle.rules.specs.Text.{text as text_of};
ghost use Rattle.order.specs.Promises.{Asks, AsksSave};

use hexadecimal::{MOST_BUFFER, read_hex};
use line::says;
use rules::{Command, Schedule};
use text::{is_word, opens, read_row};

// The places after `save` and after `load` and its space: the words' lengths.
const AFTER_SAVE: usize = 4;

const AFTER_LOAD: usize = 5;

/// What a line asks for; the bytes of a load are in the lent buffer, so many of them.
#[derive(Clone, Copy)]
pub enum Order {
    Command(Command),
    Fresh,
    Save,
    SaveInto(u32),
    Load(usize),
    State,
}

/// The schedule after a line, and how many bytes it printed; no `Done`, as the count is no answer.
#[derive(Clone, Copy)]
pub struct Performed {
    pub schedule: Schedule,
    pub count: usize,
}

// A save by itself, or into a buffer of so many bytes.
fn save_of(line: &[u8]) -> Option<Order>
    requires { same (take (length (text_of "save")) line.now) (text_of "save") ≡ true }
    ensures { AsksSave line.now result }
{
    let mut sizes = [0u32; 1];
    let count = read_row(line, AFTER_SAVE, &mut sizes)?;
    match &sizes[..count] {
        [] => Some(Order::Save),
        &[size] if size <= MOST_BUFFER => Some(Order::SaveInto(size)),
        _ => None,
    }
}

// A load of bytes in hexadecimal.
fn load_of(line: &[u8], bytes: &mut [u8]) -> Option<Order>
    requires { (same (take (length (text_of "load ")) line.now) (text_of "load ") ≡ true) × (length line.now ≤ 2 * length bytes.old) }
    ensures { Asks line.now bytes.new result }
{
    let count = read_hex(line, AFTER_LOAD, bytes)?;
    Some(Order::Load(count))
}

/// The order that a line is, written out; any other line asks for none.
pub fn order_of(line: &[u8], bytes: &mut [u8]) -> Option<Order>
    requires { length line.now ≤ 2 * length bytes.old }
    ensures { Asks line.now bytes.new result }
{
    if is_word(line, b"fresh") {
        return Some(Order::Fresh);
    }
    if is_word(line, b"state") {
        return Some(Order::State);
    }
    if is_word(line, b"load") {
        return Some(Order::Load(0));
    }
    if opens(line, b"save") {
        return save_of(line);
    }
    if opens(line, b"load ") {
        return load_of(line, bytes);
    }
    let command = says(line)?;
    Some(Order::Command(command))
}
