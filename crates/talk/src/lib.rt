//! The probe's lines that read and write a message.
#![tactic(auto)]

mod asking;
mod telling;

pub use asking::{Asked, asked_of};
pub use telling::perform_message;
