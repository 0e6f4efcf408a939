//! The subrate messages of HCI, read from bytes and written into a lent buffer.
//! No schedule is needed.
#![tactic(auto)]

ghost use Rattle.std.specs.Prelude.{◌≡◌};
ghost use Rattle.hci.specs.Promises.{of_subrates, of_change, subrates_of};

mod reading;
mod ruling;
mod writing;

pub use reading::read_message;
use rules::{SubrateChange, Subrates};
pub use writing::write_message;

// The first three bytes of each message as one number: opcode and length,
// or event code, length and subevent.
const DEFAULT_HEAD: u32 = 0x0a207d;

const REQUEST_HEAD: u32 = 0x0c207e;

const CHANGE_HEAD: u32 = 0x230c3e;

const HEAD_SIZE: usize = 3;

// The bytes of each message.
const DEFAULT_SIZE: usize = 13;

const REQUEST_SIZE: usize = 15;

const CHANGE_SIZE: usize = 14;

// The five numbers of two bytes with which each message ends:
// min or the handle, max or the factor, and three more.
#[derive(Clone, Copy)]
struct Five {
    first: u16,
    top: u16,
    latency: u16,
    continuation: u16,
    timeout: u16,
}

impl From<Subrates> for Five {
    ghost from_gives = { λ v f. f ≡ of_subrates v };

    fn from(v: Subrates) -> Five {
        Five {
            first: v.min,
            top: v.max,
            latency: v.latency,
            continuation: v.continuation,
            timeout: v.timeout,
        }
    }
}

impl From<SubrateChange> for Five {
    ghost from_gives = { λ e f. f ≡ of_change e };

    fn from(e: SubrateChange) -> Five {
        Five {
            first: e.handle,
            top: e.factor,
            latency: e.latency,
            continuation: e.continuation,
            timeout: e.timeout,
        }
    }
}

impl From<Five> for Subrates {
    ghost from_gives = { λ f v. v ≡ subrates_of f };

    fn from(f: Five) -> Subrates {
        Subrates {
            min: f.first,
            max: f.top,
            latency: f.latency,
            continuation: f.continuation,
            timeout: f.timeout,
        }
    }
}
