//! The command program, from the bytes of its input to those of its output.
#![tactic(auto)]

mod obeying;
mod running;

pub use obeying::obey;
use rules::MOST_OUTPUT;
pub use running::run;

/// The bytes that an input prints, from the start, and how many they are. No `Vec`: there is no heap;
/// and `Runs` speaks of the bytes past the count too.
#[derive(Clone, Copy)]
pub struct Output {
    pub bytes: [u8; MOST_OUTPUT],
    pub count: usize,
}
