//! The door for C: an export for each public call, with the answer in numbers.
//! `c/beak.h` is the C side of it.
#![tactic(auto)]

mod asking;
mod changing;
mod imaging;
mod messaging;
mod saying;

pub use asking::{beak_anchored, beak_owned};
pub use changing::{
    beak_admitted, beak_dropped, beak_fresh, beak_reported, beak_reported_all, beak_tidied,
};
pub use imaging::{beak_loaded, beak_saved};
pub use messaging::{
    beak_change_written, beak_default_written, beak_message_read, beak_request_written,
};
use rules::{Schedule, SubrateChange, Subrates};

/// An answer in numbers: its kind, and its values in the rule sheet's order,
/// 0 where it has none: specs/Numbers. The kind is a number here, as C takes it.
#[repr(C)]
#[derive(Clone, Copy)]
pub struct Said {
    pub kind: u32,
    pub first: u32,
    pub second: u32,
    pub third: u32,
}

/// An answer in numbers beside the schedule that the call leaves.
#[repr(C)]
#[derive(Clone, Copy)]
pub struct Called {
    pub said: Said,
    pub schedule: Schedule,
}

/// What was read: the answer in numbers, and the values of the message that it is,
/// zeros where it has none.
#[repr(C)]
#[derive(Clone, Copy)]
pub struct Read {
    pub said: Said,
    pub handle: u16,
    pub subrates: Subrates,
    pub change: SubrateChange,
}
