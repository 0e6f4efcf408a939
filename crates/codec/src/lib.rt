//! Numbers in bytes, little-endian, in up to 4 bytes, at a place: README names both functions so.
#![tactic(auto)]

ghost use Rattle.std.specs.Prelude.{◌≡◌, ◌+◌, ◌≤◌, length, take, drop};
ghost use Rattle.std.proofs.lemmas.List.Edits.{sets};
ghost use Rattle.rules.specs.Bytes.{little, little_number};

/// The number in `width` bytes from `at` on.
pub fn number(bytes: &[u8], at: usize, width: usize) -> u32
    requires { (width ≤ 4) × (at + width ≤ length bytes.now) }
    ensures { result ≡ little_number (take width (drop at bytes.now)) }
{
    let mut n: u32 = 0;
    for &byte in bytes[at..at + width].iter().rev() {
        n = n * 256 + u32::from(byte);
    }
    n
}

/// Writes a number into `width` bytes from `at` on.
pub fn put_number(buffer: &mut [u8], at: usize, width: usize, n: u32)
    requires { at + width ≤ length buffer.old }
    ensures { buffer.new ≡ sets buffer.old at (little width n) }
{
    let mut rest = n;
    for byte in &mut buffer[at..at + width] {
        // a remainder by 256 is a byte: nothing is lost
        *byte = (rest % 256) as u8;
        rest = rest / 256;
    }
}
