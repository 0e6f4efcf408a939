//! What stands in a text.
ghost use Rattle.std.specs.Prelude.{◌≡◌, ◌+◌, ◌≤◌, length, take, drop};
ghost use Rattle.rules.specs.Bytes.{same};
ghost use Rattle.texts.specs.Row.{number_in};
ghost use Rattle.rules.specs.Split.{before};
ghost use Rattle.text.specs.Promises.{ReadsRow, SplitsLine};

/// The place of the next such byte, from a place on; or the end.
pub fn find(bytes: &[u8], from: usize, byte: u8) -> usize
    requires { from ≤ length bytes.now }
    ensures { result ≡ from + length (before byte (drop from bytes.now)) }
{
    let rest = &bytes[from..];
    from + rest.iter().position(|&b| b == byte).unwrap_or(rest.len())
}

/// The first line of a text, without its LF, and what follows; none where no line ends.
pub fn split_line(text: &[u8]) -> Option<(&[u8], &[u8])>
    ensures { SplitsLine text.now result }
{
    let end = find(text, 0, b'\n');
    if end == text.len() {
        return None;
    }
    Some((&text[..end], &text[end + 1..]))
}

/// Whether a line opens with a word.
pub fn opens(line: &[u8], word: &[u8]) -> bool
    ensures { result ≡ same (take (length word.now) line.now) word.now }
{
    line.starts_with(word)
}

/// Whether a line is a word.
pub fn is_word(line: &[u8], word: &[u8]) -> bool
    ensures { result ≡ same line.now word.now }
{
    line == word
}

// The number that digits say: decimal, no leading zero save `0`, at most 2^32 - 1.
fn number(digits: &[u8]) -> Option<u32>
    ensures { result ≡ number_in digits.now }
{
    if matches!(digits, [] | [b'0', _, ..]) {
        return None;
    }
    let mut value: u32 = 0;
    for &byte in digits {
        if !byte.is_ascii_digit() {
            return None;
        }
        value = value.checked_mul(10)?.checked_add(u32::from(byte - b'0'))?;
    }
    Some(value)
}

/// The numbers from a place on to the line's end, one space before each, into the lent slice, and
/// how many they are; or the bytes are no row that the slice takes.
pub fn read_row(line: &[u8], at: usize, numbers: &mut [u32]) -> Option<usize>
    requires { at ≤ length line.now }
    ensures { ReadsRow (drop at line.now) numbers.old numbers.new result }
{
    let mut next = at;
    let mut count: usize = 0;
    // the place moves on by a number's length: no iterator gives these steps
    while next < line.len() {
        if count == numbers.len() {
            return None;
        }
        if line[next] != b' ' {
            return None;
        }
        let start = next + 1;
        let end = find(line, start, b' ');
        numbers[count] = number(&line[start..end])?;
        count += 1;
        next = end;
    }
    Some(count)
}
