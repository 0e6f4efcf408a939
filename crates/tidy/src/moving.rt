//! The moves: for each live handle whose anchor differs, by rising handle, an entry of the lent list.
ghost use Rattle.std.specs.Prelude.{◌≡◌, ◌&&◌, ◌+◌, ◌*◌, ◌≤◌, length};
ghost use Rattle.rules.specs.Lent.{over};
ghost use Rattle.rules.specs.Tidy.{differs, movers, moves as moves_of, move_width, entries};
ghost use Rattle.tidy.specs.Promises.{Counts, move_named, PutsMove};

use rules::{Connection, MOVE_WIDTH, Schedule};

// Whether a live connection has another anchor.
fn has_moved(old: Connection, new: Connection) -> bool
    ensures { result ≡ (old.live && differs old new) }
{
    old.live && old.anchor != new.anchor
}

// How many anchors differ.
pub fn count_moves(old: &Schedule, new: &Schedule) -> usize
    ensures { Counts old.now.connections new.now.connections result }
{
    old.connections
        .iter()
        .zip(&new.connections)
        .filter(|(c, d)| has_moved(**c, **d))
        .count()
}

// An entry of the list: the handle, the old anchor and the new one.
fn put_move(list: &mut [u32], at: usize, handle: u32, old: u32, new: u32)
    requires { at + move_width ≤ length list.old }
    ensures { PutsMove at (move_named handle old new) list.old list.new }
{
    list[at] = handle;
    list[at + 1] = old;
    list[at + 2] = new;
}

// The entries, from the list's start.
pub fn put_moves(old: &Schedule, new: &Schedule, list: &mut [u32])
    requires { move_width * length (movers old.now.connections new.now.connections) ≤ length list.old }
    ensures { list.new ≡ over (entries (moves_of old.now.connections new.now.connections)) list.old }
{
    // tried over `as_chunks_mut`: the invariant is then given the chunks left, and no `list` to name
    let mut at: usize = 0;
    for (h, c) in old.connections.iter().enumerate() {
        let d = new.connections[h];
        if has_moved(*c, d) {
            // below 64: nothing is lost
            put_move(list, at, h as u32, c.anchor, d.anchor);
            at += MOVE_WIDTH;
        }
    }
}
