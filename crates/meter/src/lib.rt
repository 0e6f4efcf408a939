//! The rule that moves a meter, on numbers.
#![tactic(auto)]

ghost use Rattle.std.specs.Prelude.{◌≡◌, ◌≤◌};
ghost use Rattle.meter.specs.Moved.{list_micros, moved_meter};
ghost use Rattle.rules.specs.Meter.{moved as moved_rule, need as need_rule, target as target_rule};

use rules::{BLOCK_MICROS, GUARD_MICROS, Meter};

// e + floor((s - e) / 8), the division rounded toward minus infinity.
fn moved(estimate: u32, sample: u32) -> u32
    ensures { result ≡ moved_rule estimate sample }
{
    if estimate <= sample {
        estimate + (sample - estimate) / 8
    } else {
        estimate - ((estimate - sample - 1) / 8 + 1)
    }
}

// (e + 2,500) / 7,500 rounded up.
fn need(estimate: u32) -> u32
    requires { estimate ≤ list_micros }
    ensures { result ≡ need_rule estimate }
{
    (estimate + GUARD_MICROS + (BLOCK_MICROS - 1)) / BLOCK_MICROS
}

// Need, raised to the floor or lowered to the ceiling.
fn target(needed: u32, floor: u16, ceiling: u16) -> u16
    ensures { result ≡ target_rule needed floor ceiling }
{
    // at most the ceiling, a u16: nothing is lost
    needed.max(u32::from(floor)).min(u32::from(ceiling)) as u16
}

// The meter moved by a sample: the new estimate, with the length that it aims at.
fn moved_meter(m: Meter, sample: u32, floor: u16, ceiling: u16) -> Meter
    requires { (m.estimate ≤ list_micros) × (sample ≤ list_micros) }
    ensures { result ≡ moved_meter m sample floor ceiling }
{
    let e = moved(m.estimate, sample);
    Meter {
        estimate: e,
        length: target(need(e), floor, ceiling),
    }
}

// The meter, lent to the rule that moves it.
fn move_lent(m: &mut Meter, sample: u32, floor: u16, ceiling: u16)
    requires { (m.old.estimate ≤ list_micros) × (sample ≤ list_micros) }
    ensures { m.new ≡ moved_meter m.old sample floor ceiling }
{
    *m = moved_meter(*m, sample, floor, ceiling);
}

/// Makes a connection's meter, lends it to the rule with a sample, and hands back what came of it.
pub fn move_meter(estimate: u32, length: u16, sample: u32, floor: u16, ceiling: u16) -> Meter
    requires { (estimate ≤ list_micros) × (sample ≤ list_micros) }
    ensures { result ≡ moved_meter (record { estimate = estimate; length = length }) sample floor ceiling }
{
    let mut m = Meter { estimate, length };
    move_lent(&mut m, sample, floor, ceiling);
    m
}
