//! What a line prints: the call's answer, and the buffer of a writing.
ghost use Rattle.std.specs.Prelude.{◌++◌, ◌+◌, ◌*◌, ◌≤◌, length};
ghost use Rattle.rules.specs.Text.{text as text_of};
ghost use Rattle.rules.specs.Words.{words_of};
ghost use Rattle.rules.specs.ReadMessage.{read_message};
ghost use Rattle.text.specs.Promises.{PutsWithin};
ghost use Rattle.hexadecimal.specs.Lending.{most_buffer};
ghost use Rattle.talk.specs.Promises.{written_line, longest_told, Tells};

use crate::asking::{Asked, asked_of};
use answer::{put_counted, put_reading};
use hci::{read_message, write_message};
use hexadecimal::{blank, put_buffer};
use rules::Message;
use text::put_word;

fn put_read(out: &mut [u8], bytes: &[u8]) -> usize
    requires { longest_told ≤ length out.old }
    ensures { PutsWithin longest_told out.old 0 (words_of (read_message bytes.now) ++ text_of "\n") out.new result }
{
    let a = put_reading(out, 0, read_message(bytes));
    put_word(out, a, b"\n")
}

fn put_written(out: &mut [u8], message: Message, bytes: &mut [u8]) -> usize
    requires { (longest_told ≤ length out.old) × (length bytes.old ≤ most_buffer) }
    ensures { PutsWithin longest_told out.old 0 (written_line message (length bytes.old)) out.new result }
{
    blank(bytes);
    // a message is below 20 bytes: nothing is lost
    let answer = write_message(message, bytes).map(|size| size as u32);
    let a = put_counted(out, 0, b"wrote", answer);
    let b = put_buffer(out, a, bytes);
    put_word(out, b, b"\n")
}

/// Performs a line that reads or writes a message: writes what it prints from the buffer's start,
/// and says how many bytes; or it is no such line. The other buffer is for a message's bytes.
pub fn perform_message(line: &[u8], bytes: &mut [u8], out: &mut [u8]) -> Option<usize>
    requires { (length line.now ≤ 2 * length bytes.old) × (most_buffer ≤ length bytes.old)
        × (longest_told ≤ length out.old) }
    ensures { Tells out.old out.new result }
{
    match asked_of(line, bytes) {
        Asked::Read(n) => Some(put_read(out, &bytes[..n])),
        Asked::Write(n, message) => Some(put_written(out, message, &mut bytes[..n])),
        Asked::Bad => Some(put_word(out, 0, b"bad\n")),
        Asked::Other => None,
    }
}
