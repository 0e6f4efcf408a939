//! The buffer that a script's line lends: before the call, and written out after it.
ghost use Rattle.std.specs.Prelude.{◌≡◌, ◌+◌, ◌*◌, ◌≤◌, length};
ghost use Rattle.text.specs.Promises.{PutsWithin};
ghost use Rattle.hexadecimal.specs.Lending.{blank as blank_bytes, buffer_words};

use crate::put_hex;
use text::put_word;

/// The largest buffer of a line, in bytes: most_buffer of specs/Lending.
pub const MOST_BUFFER: u32 = 2048;

/// Each byte holds A5 hexadecimal.
pub fn blank(bytes: &mut [u8])
    ensures { bytes.new ≡ blank_bytes (length bytes.old) }
{
    bytes.fill(165);
}

/// A space and the bytes of a buffer, if there are any.
pub fn put_buffer(out: &mut [u8], at: usize, bytes: &[u8]) -> usize
    requires { at + 1 + 2 * length bytes.now ≤ length out.old }
    ensures { PutsWithin (1 + 2 * length bytes.now) out.old at (buffer_words bytes.now) out.new result }
{
    if bytes.is_empty() {
        return at;
    }
    let a = put_word(out, at, b" ");
    put_hex(out, a, bytes)
}
