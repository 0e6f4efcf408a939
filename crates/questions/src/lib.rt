//! The questions: whose block it is, and how far an anchor is. They change nothing.
#![tactic(auto)]

ghost use Rattle.std.specs.Prelude.{◌≡◌, true};
ghost use Rattle.rules.specs.Good.{Good};
ghost use Rattle.rules.specs.Ownership.{owns as owns_block};
ghost use Rattle.rules.specs.Sound.{Numbers};
ghost use Rattle.questions.specs.Promises.{OwnerSays, AnchorSays};

use rules::{BLOCK_SLOTS, Connection, DEPTH, HANDLES, LIST_BLOCKS, Refusal, Schedule};
use run::{live_connection, minus_mod};

// Whether the block belongs to the connection, and the connection is live.
fn owns(c: Connection, block: u32) -> bool
    requires { c.live ≡ true → Numbers c }
    ensures { result ≡ owns_block c block }
{
    c.live && minus_mod(u32::from(c.k), block, c.anchor) < u32::from(c.length)
}

/// The handle of the connection that the block belongs to; none where it is idle.
pub fn owner(s: Schedule, block: u32) -> Option<u8>
    requires { Good s }
    ensures { OwnerSays s block result }
{
    // the block's leaf says idle at once; LIST_BLOCKS is a constant, whose cast is computed
    if tree::is_free(&s.tree.bytes, DEPTH, block % LIST_BLOCKS as u32) {
        return None;
    }
    // below 64: nothing is lost
    s.connections
        .iter()
        .position(|c| owns(*c, block))
        .map(|h| h as u8)
}

/// Slots from the start of the block to the connection's next anchor.
pub fn anchor(s: Schedule, handle: u32, block: u32) -> Result<u32, Refusal>
    requires { Good s }
    ensures { AnchorSays s handle block result }
{
    let c = live_connection(&s, handle)?;
    Ok(BLOCK_SLOTS * minus_mod(u32::from(c.k), c.anchor, block))
}
