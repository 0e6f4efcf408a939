//! The questions: they change nothing, so the answer alone goes back.
ghost use Rattle.rules.specs.Good.{Good};
ghost use Rattle.rules.specs.Owner.{owner_of};
ghost use Rattle.rules.specs.Anchor.{anchor as anchor_rule};
ghost use Rattle.door.specs.Numbers.{InNumbers};

use crate::Said;
use crate::saying::{Kind, owned, refused, say};
use questions::{anchor, owner};
use rules::Schedule;

/// Owner.
#[unsafe(no_mangle)]
pub extern "C" fn beak_owned(s: Schedule, block: u32) -> Said
    requires { Good s }
    ensures { InNumbers (owner_of s block) result }
{
    owned(owner(s, block))
}

/// Anchor.
#[unsafe(no_mangle)]
pub extern "C" fn beak_anchored(s: Schedule, handle: u32, block: u32) -> Said
    requires { Good s }
    ensures { InNumbers (anchor_rule s handle block) result }
{
    anchor(s, handle, block).map_or_else(refused, |n| say(Kind::Slots, n))
}
