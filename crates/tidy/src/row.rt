//! The row of a depth: for each of its classes 1 where it is free, and 0 where it is taken.
ghost use Rattle.std.specs.Prelude.{◌≡◌, ◌<◌, ◌≤◌, ◌^◌, length};
ghost use Rattle.rules.specs.Ownership.{largest_k};
ghost use Rattle.place.specs.Promises.{row_classes};
ghost use Rattle.tidy.specs.Promises.{Widens, TakesRow};

use place::ROW_CLASSES;
use run::{class_at, factor};

// Every connection that is placed has a factor below F: a class is taken exactly if its remainder
// by half of F is.
pub fn widen(room: &mut [u16; ROW_CLASSES], k: u32)
    requires { k ≤ largest_k }
    ensures { Widens k room.old room.new }
{
    // a u32 as a place, here and below, which `From` does not give
    let half = factor(k) as usize / 2;
    room.copy_within(..half, half);
}

// The classes of a run are taken.
pub fn take_run(room: &mut [u16; ROW_CLASSES], k: u32, anchor: u32, blocks: u32)
    requires { (k ≤ largest_k) × (anchor < 2 ^ k) × (blocks ≤ 2 ^ k) }
    ensures { TakesRow k anchor blocks room.old room.new }
{
    for j in 0..blocks {
        room[class_at(k, anchor, j) as usize] = 0;
    }
}
