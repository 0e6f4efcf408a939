//! Words and numbers, written at a place; each answers the place after it. The slice and the place
//! are no struct: README names these functions, and a caller may have any slice and any place in it.
ghost use Rattle.std.specs.Prelude.{◌+◌, ◌*◌, ◌≤◌, [], ◌∷◌, ◌++◌, length, ◌≡◌};
ghost use Rattle.rules.specs.Refusals.{number};
ghost use Rattle.rules.specs.Decimal.{decimal};
ghost use Rattle.rules.specs.Answers.{refused};
ghost use Rattle.rules.specs.Words.{spaced, words_of};
ghost use Rattle.text.specs.Promises.{Puts, PutsWithin, longest_refusal};

use rules::Refusal;

/// Words as they are.
pub fn put_word(out: &mut [u8], at: usize, word: &[u8]) -> usize
    requires { at + length word.now ≤ length out.old }
    ensures { Puts out.old at word.now out.new result }
{
    let end = at + word.len();
    out[at..end].copy_from_slice(word);
    end
}

/// The digits of a number: those of a tenth of it, then the last. `write!` into the slice would
/// need a cursor, and give a Result that says nothing here.
pub fn put_decimal(out: &mut [u8], at: usize, n: u32) -> usize
    requires { at + length (decimal n) ≤ length out.old }
    ensures { Puts out.old at (decimal n) out.new result }
{
    if n < 10 {
        // one digit, here and below: nothing is lost
        out[at] = b'0' + n as u8;
        return at + 1;
    }
    let next = put_decimal(out, at, n / 10);
    out[next] = b'0' + (n % 10) as u8;
    next + 1
}

/// A space and a number.
pub fn put_spaced(out: &mut [u8], at: usize, n: u32) -> usize
    requires { at + length (spaced (n ∷ [])) ≤ length out.old }
    ensures { Puts out.old at (spaced (n ∷ [])) out.new result }
{
    out[at] = b' ';
    put_decimal(out, at + 1, n)
}

/// A space and the number, for each.
pub fn put_row(out: &mut [u8], at: usize, numbers: &[u32]) -> usize
    requires { at + 11 * length numbers.now ≤ length out.old }
    ensures { PutsWithin (11 * length numbers.now) out.old at (spaced numbers.now) out.new result }
{
    let mut next = at;
    for &n in numbers {
        next = put_spaced(out, next, n);
    }
    next
}

/// A word and a number.
pub fn put_count(out: &mut [u8], at: usize, word: &[u8], n: u32) -> usize
    requires { at + (length word.now + 11) ≤ length out.old }
    ensures { PutsWithin (length word.now + 11) out.old at (word.now ++ spaced (n ∷ [])) out.new result }
{
    let a = put_word(out, at, word);
    put_spaced(out, a, n)
}

/// The table's number of a refusal, row by row as the sheet has it: its wrong versions change a row.
// No `as u32` of the enum: the wrong versions not_live_is_2 and tree_is_11 each change a row here.
pub fn refusal_number(r: Refusal) -> u32
    ensures { result ≡ number r }
{
    match r {
        Refusal::HandleAbove63 => 1,
        Refusal::HandleLive => 2,
        Refusal::HandleNotLive => 3,
        Refusal::IntervalOutside => 4,
        Refusal::ShareWrong => 5,
        Refusal::NoOpenAnchor => 6,
        Refusal::SampleAboveRun => 7,
        Refusal::BufferShort => 8,
        Refusal::RecordsWrong => 9,
        Refusal::NumbersUnsound => 10,
        Refusal::BlockOwnedTwice => 11,
        Refusal::TreeDiffers => 12,
        Refusal::ReportsMany => 13,
        Refusal::ListShort => 14,
        Refusal::NoInterval => 15,
        Refusal::MessageWrong => 16,
        Refusal::ValuesForbidden => 17,
        Refusal::FactorIllegal => 18,
        Refusal::NoAnchorForAll => 19,
        Refusal::CeilingAboveHalf => 20,
    }
}

/// The words of a refusal.
pub fn put_refused(out: &mut [u8], at: usize, r: Refusal) -> usize
    requires { at + longest_refusal ≤ length out.old }
    ensures { PutsWithin longest_refusal out.old at (words_of (refused (number r))) out.new result }
{
    put_count(out, at, b"no", refusal_number(r))
}
