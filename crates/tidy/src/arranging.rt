//! The placing: by rising factor, equal factors by rising handle.
ghost use Rattle.std.specs.Prelude.{◌≡◌, ◌&&◌, ◌≤◌, eqb};
ghost use Rattle.rules.specs.Ownership.{largest_k};
ghost use Rattle.rules.specs.Good.{Good};
ghost use Rattle.rules.specs.Tidy.{arranged};
ghost use Rattle.tidy.specs.Promises.{Reaches, ArrangesDepth, Arranges};

use crate::row::{take_run, widen};
use place::{ROW_CLASSES, list_anchors, search_row};
use rules::{Connection, LARGEST_K, Refusal, Schedule};
use run::{fresh, set_run};

// Whether it is a live connection of this depth.
fn is_of(c: Connection, k: u32) -> bool
    ensures { result ≡ (c.live && eqb c.k k) }
{
    c.live && u32::from(c.k) == k
}

// The connections of one depth, by rising handle, beside those of every smaller factor; or one of
// them finds no anchor.
fn arrange_depth(
    s: &Schedule,
    new: &mut Schedule,
    k: u32,
    room: &mut [u16; ROW_CLASSES],
) -> Result<(), Refusal>
    requires { Good s.now × (k ≤ largest_k) × Reaches s.now.connections k new.old room.old }
    ensures { ArrangesDepth s.now.connections k new.old new.new room.new result }
{
    let mut anchors = [0u16; ROW_CLASSES];
    list_anchors(k, &mut anchors);
    widen(room, k);
    for (h, c) in s.connections.iter().enumerate() {
        if is_of(*c, k) {
            let length = u32::from(c.length);
            let found = search_row(room, &anchors, k, length).ok_or(Refusal::NoAnchorForAll)?;
            let anchor = u32::from(found);
            take_run(room, k, anchor, length);
            set_run(&mut new.tree.bytes, k, anchor, 0, length, true);
            new.connections[h] = Connection { anchor, ..*c };
        }
    }
    Ok(())
}

// All live connections, each at the first anchor beside those before it; or one of them finds none.
pub fn arrange(s: &Schedule) -> Result<Schedule, Refusal>
    requires { Good s.now }
    ensures { Arranges (arranged s.now.connections) result }
{
    let mut new = fresh();
    let mut room = [1u16; ROW_CLASSES];
    for k in 0..=LARGEST_K as u32 {
        arrange_depth(s, &mut new, k, &mut room)?;
    }
    Ok(new)
}
