//! The lines of a schedule's state.
#![tactic(auto)]

ghost use Rattle.std.specs.Prelude.{◌≡◌, ◌+◌, ◌*◌, ◌≤◌, [], ◌∷◌, ◌++◌, length};
ghost use Rattle.rules.specs.Decimal.{decimal};
ghost use Rattle.rules.specs.Words.{spaced};
ghost use Rattle.rules.specs.Ownership.{handles};
ghost use Rattle.text.specs.Promises.{PutsWithin};
ghost use Rattle.state.specs.State.{newline, connection_line, longest_line};
ghost use Rattle.state.specs.Promises.{PutsState};

use rules::{Connection, HANDLES};
use text::{put_decimal, put_spaced, put_word};

// Which blocks are whose: handle, k, anchor, length.
fn put_run(out: &mut [u8], at: usize, handle: u8, c: Connection) -> usize
    requires { at + 24 ≤ length out.old }
    ensures { PutsWithin 24 out.old at (decimal handle ++ spaced (c.k ∷ c.anchor ∷ c.length ∷ []))
        out.new result }
{
    let a = put_decimal(out, at, u32::from(handle));
    let b = put_spaced(out, a, u32::from(c.k));
    let d = put_spaced(out, b, c.anchor);
    put_spaced(out, d, u32::from(c.length))
}

// What the length moves by: floor, ceiling, estimate.
fn put_share(out: &mut [u8], at: usize, c: Connection) -> usize
    requires { at + 24 ≤ length out.old }
    ensures { PutsWithin 24 out.old at (spaced (c.floor ∷ c.ceiling ∷ c.estimate ∷ []) ++ newline)
        out.new result }
{
    let a = put_spaced(out, at, u32::from(c.floor));
    let b = put_spaced(out, a, u32::from(c.ceiling));
    let d = put_spaced(out, b, c.estimate);
    put_word(out, d, b"\n")
}

// The line of a live connection.
fn put_connection(out: &mut [u8], at: usize, handle: u8, c: Connection) -> usize
    requires { at + longest_line ≤ length out.old }
    ensures { PutsWithin longest_line out.old at (connection_line handle c) out.new result }
{
    let a = put_run(out, at, handle, c);
    put_share(out, a, c)
}

/// The lines of the live connections, handles rising.
pub fn put_state(out: &mut [u8], connections: &[Connection; HANDLES]) -> usize
    requires { longest_line * handles ≤ length out.old }
    ensures { PutsState connections.now out.old out.new result }
{
    let mut next = 0;
    for (h, c) in connections.iter().enumerate() {
        if c.live {
            // below 64: nothing is lost
            next = put_connection(out, next, h as u8, *c);
        }
    }
    next
}
