//! Save and load: an image is a slice, which for C is a pointer and a count.
ghost use Rattle.rules.specs.Good.{Good};
ghost use Rattle.rules.specs.Save.{save as save_rule};
ghost use Rattle.rules.specs.Load.{load as load_rule};
ghost use Rattle.door.specs.Promises.{Leaves, Writes};

use crate::saying::{Kind, called, refused, say};
use crate::{Called, Said};
use image::{load, save};
use rules::Schedule;

/// Save.
#[unsafe(no_mangle)]
pub extern "C" fn beak_saved(s: Schedule, buffer: &mut [u8]) -> Said
    requires { Good s }
    ensures { Writes (save_rule s buffer.old) buffer.new result }
{
    // an image is below 2,000 bytes: nothing is lost
    save(s, buffer).map_or_else(refused, |size| say(Kind::Saved, size as u32))
}

/// Load.
#[unsafe(no_mangle)]
pub extern "C" fn beak_loaded(s: Schedule, bytes: &[u8]) -> Called
    requires { Good s }
    ensures { Leaves (load_rule s bytes.now) result }
{
    called(load(s, bytes), |n| say(Kind::Loaded, u32::from(n)))
}
