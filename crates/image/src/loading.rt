//! Load: checks 9, 10, 18, 11, 12, each over the whole image before the next.
ghost use Rattle.rules.specs.Good.{Good};
ghost use Rattle.image.specs.Promises.{ReadsImage, Loads};

use frame::framed;
use restore::{check_records, restore};
use rules::{Done, HEADER_SIZE, Refusal, Schedule};

// How many connections the bytes are an image of; their schedule is the lent one.
fn read_image(bytes: &[u8], new: &mut Schedule) -> Result<u8, Refusal>
    ensures { ReadsImage bytes.now new.new result }
{
    let n = framed(bytes)?;
    check_records(bytes, usize::from(n))?;
    let restored = restore(bytes, usize::from(n));
    *new = restored.schedule;
    let Ok(end) = restored.answer else {
        return Err(Refusal::BlockOwnedTwice);
    };
    if bytes[end + HEADER_SIZE..] != new.tree.bytes[..] {
        return Err(Refusal::TreeDiffers);
    }
    Ok(n)
}

/// The schedule of an image, in place of the old one, and how many connections it has.
pub fn load(s: Schedule, bytes: &[u8]) -> Done<Result<u8, Refusal>>
    requires { Good s }
    ensures { Loads s bytes.now result }
{
    // a place for the new one: `read_image` writes it whole, and it counts where all is accepted
    let mut new = s;
    let answer = read_image(bytes, &mut new);
    Done {
        answer,
        schedule: if answer.is_ok() { new } else { s },
    }
}
