//! Report: checks 1, 3, 7.
ghost use Rattle.std.specs.Prelude.{◌≡◌, ◌≤◌};
ghost use Rattle.rules.specs.Good.{Good};
ghost use Rattle.rules.specs.Report.{metered};
ghost use Rattle.rules.specs.Sound.{Numbers};
ghost use Rattle.tree.specs.Promises.{IsTree};
ghost use Rattle.schedule.specs.Promises.{length_in, Settles, Reports};

use crate::done;
use meter::move_meter;
use rules::{Adjusted, BLOCK_MICROS, Connection, Done, Refusal, Schedule, TREE_BYTES};
use run::{class_at, live_connection, set_run};

// Kept, shrunk, grown or tight for the length aimed at; the tree follows.
pub fn settle(tree: &mut [u8; TREE_BYTES], c: Connection, aim: u16) -> Adjusted
    requires { Numbers c × (aim ≤ c.ceiling) × IsTree tree.old }
    ensures { Settles c aim tree.old tree.new result }
{
    let k = u32::from(c.k);
    let length = u32::from(c.length);
    if aim == c.length {
        return Adjusted::Kept(aim);
    }
    if aim < c.length {
        set_run(tree, k, c.anchor, u32::from(aim), length, false);
        return Adjusted::Shrunk(aim);
    }
    if tree::is_free(tree, k, class_at(k, c.anchor, length)) {
        set_run(tree, k, c.anchor, length, length + 1, true);
        return Adjusted::Grown(c.length + 1);
    }
    Adjusted::Tight(c.length)
}

fn length_of(to: Adjusted) -> u16
    ensures { result ≡ length_in to }
{
    match to {
        Adjusted::Kept(length)
        | Adjusted::Grown(length)
        | Adjusted::Shrunk(length)
        | Adjusted::Tight(length) => length,
    }
}

fn with_meter(c: Connection, length: u16, estimate: u32) -> Connection
    ensures { result ≡ metered c length estimate }
{
    Connection {
        length,
        estimate,
        ..c
    }
}

// Checks 1, 3 and 7; then the meter is moved, and the run settles to the length aimed at.
fn meter(s: &mut Schedule, handle: u32, sample: u32) -> Result<Adjusted, Refusal>
    requires { Good s.old }
    ensures { Reports s.old handle sample (record { answer = result; schedule = s.new }) }
{
    let c = live_connection(s, handle)?;
    if u32::from(c.length) * BLOCK_MICROS < sample {
        return Err(Refusal::SampleAboveRun);
    }
    let m = move_meter(c.estimate, c.length, sample, c.floor, c.ceiling);
    let to = settle(&mut s.tree.bytes, c, m.length);
    // a u32 as a place, which `From` does not give
    s.connections[handle as usize] = with_meter(c, length_of(to), m.estimate);
    Ok(to)
}

/// Reports the µs that a connection used in its last run.
pub fn report(s: Schedule, handle: u32, sample: u32) -> Done<Result<Adjusted, Refusal>>
    requires { Good s }
    ensures { Reports s handle sample result }
{
    done(s, |s| meter(s, handle, sample))
}
