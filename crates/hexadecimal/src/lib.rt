//! Bytes in lower-case hexadecimal, written and read.
#![tactic(auto)]

ghost use Rattle.std.specs.Prelude.{◌≡◌, ◌+◌, ◌*◌, ◌<◌, ◌≤◌, length, drop};
ghost use Rattle.text.specs.Promises.{Puts};
ghost use Rattle.hexadecimal.specs.Hex.{hex_digit, hex};
ghost use Rattle.hexadecimal.specs.Promises.{IsNibble, ReadsHex};

mod lending;

pub use lending::{MOST_BUFFER, blank, put_buffer};

fn hex_digit(d: u8) -> u8
    requires { d < 16 }
    ensures { result ≡ hex_digit d }
{
    if d < 10 { b'0' + d } else { b'a' + (d - 10) }
}

/// Bytes in hexadecimal; then comes the place after them.
pub fn put_hex(out: &mut [u8], at: usize, bytes: &[u8]) -> usize
    requires { at + 2 * length bytes.now ≤ length out.old }
    ensures { Puts out.old at (hex bytes.now) out.new result }
{
    let mut next = at;
    // by index: once an `iter_mut` is over, a proof knows the slice's length alone
    for &b in bytes {
        out[next] = hex_digit(b / 16);
        out[next + 1] = hex_digit(b % 16);
        next += 2;
    }
    next
}

// The number that a hexadecimal digit says.
fn nibble_of(c: u8) -> Option<u8>
    ensures { IsNibble c result }
{
    match c {
        b'0'..=b'9' => Some(c - b'0'),
        b'a'..=b'f' => Some(c - b'a' + 10),
        _ => None,
    }
}

/// The bytes that the digits from a place on say, one pair at least, and how many they are.
pub fn read_hex(line: &[u8], at: usize, bytes: &mut [u8]) -> Option<usize>
    requires { (at ≤ length line.now) × (length line.now ≤ at + 2 * length bytes.old) }
    ensures { ReadsHex (drop at line.now) bytes.new result }
{
    let (pairs, rest) = line[at..].as_chunks::<2>();
    if pairs.is_empty() || !rest.is_empty() {
        return None;
    }
    // by index, as above
    for (i, &[high, low]) in pairs.iter().enumerate() {
        bytes[i] = nibble_of(high)? * 16 + nibble_of(low)?;
    }
    Some(pairs.len())
}
