//! An answer of a report as one number.
ghost use Rattle.std.specs.Prelude.{◌≡◌};
ghost use Rattle.rules.specs.Answers.{of_reporting};
ghost use Rattle.rules.specs.Reports.{coded};

use rules::{Adjusted, Refusal};
use text::refusal_number;

// What stands before the length: above every length and every refusal's number. An entry is a number
// as C reads it (`beak_entry`).
const KEPT: u32 = 65_536;

const GROWN: u32 = 2 * KEPT;

const SHRUNK: u32 = 3 * KEPT;

const TIGHT: u32 = 4 * KEPT;

pub fn code_of(answer: Result<Adjusted, Refusal>) -> u32
    ensures { result ≡ coded (of_reporting answer) }
{
    match answer {
        Ok(Adjusted::Kept(length)) => KEPT + u32::from(length),
        Ok(Adjusted::Grown(length)) => GROWN + u32::from(length),
        Ok(Adjusted::Shrunk(length)) => SHRUNK + u32::from(length),
        Ok(Adjusted::Tight(length)) => TIGHT + u32::from(length),
        Err(r) => refusal_number(r),
    }
}
