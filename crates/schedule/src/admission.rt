//! Admit: checks 1, 2, 4, 15, 5, 20, 6.
ghost use Rattle.std.specs.Prelude.{◌≡◌, ◌≤◌};
ghost use Rattle.rules.specs.Time.{list_blocks};
ghost use Rattle.rules.specs.Good.{Good};
ghost use Rattle.rules.specs.Admit.{new_connection};
ghost use Rattle.schedule.specs.Promises.{Admits};

use crate::done;
use place::plan;
use rules::{BLOCK_MICROS, Connection, Done, GUARD_MICROS, LAST_HANDLE, Placed, Refusal, Schedule};
use run::{factor, set_run};

// L is the floor; the estimate is L × 7,500 - 2,500.
fn new_connection(k: u8, anchor: u32, floor: u16, ceiling: u16) -> Connection
    requires { (1 ≤ floor) × (floor ≤ list_blocks) }
    ensures { result ≡ new_connection k anchor floor ceiling }
{
    Connection {
        live: true,
        k,
        length: floor,
        floor,
        ceiling,
        anchor,
        estimate: u32::from(floor) * BLOCK_MICROS - GUARD_MICROS,
    }
}

// Check 1 and those of the plan; then the connection takes its blocks.
fn place(
    s: &mut Schedule,
    handle: u32,
    smallest: u32,
    largest: u32,
    floor: u32,
    ceiling: u32,
) -> Result<Placed, Refusal>
    requires { Good s.old }
    ensures { Admits s.old handle smallest largest floor ceiling (record { answer = result; schedule = s.new }) }
{
    if LAST_HANDLE < handle {
        return Err(Refusal::HandleAbove63);
    }
    // a u32 as a place; the bounds are at most the factor, and that at most 512: nothing is lost
    let h = handle as usize;
    let live = s.connections[h].live;
    let to = plan(&s.tree.bytes, live, smallest, largest, floor, ceiling)?;
    let k = u32::from(to.k);
    let anchor = u32::from(to.anchor);
    set_run(&mut s.tree.bytes, k, anchor, 0, floor, true);
    s.connections[h] = new_connection(to.k, anchor, floor as u16, ceiling as u16);
    Ok(Placed {
        factor: factor(k) as u16,
        anchor: to.anchor,
        length: floor as u16,
    })
}

/// Admits a connection: handle, smallest and largest interval in slots, floor and ceiling in blocks.
pub fn admit(
    s: Schedule,
    handle: u32,
    smallest: u32,
    largest: u32,
    floor: u32,
    ceiling: u32,
) -> Done<Result<Placed, Refusal>>
    requires { Good s }
    ensures { Admits s handle smallest largest floor ceiling result }
{
    done(s, |s| place(s, handle, smallest, largest, floor, ceiling))
}
