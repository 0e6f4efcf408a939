//! A line of a script, performed: the command program's lines, and those for tests and for the people who keep the fleet running.
#![tactic(auto)]

mod performing;

pub use performing::perform;
