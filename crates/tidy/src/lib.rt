//! Tidy: the live connections placed anew, one after the other, each where an admission would go, with its present length for the floor. Checks 19, 14.
#![tactic(auto)]

mod arranging;
mod moving;
mod row;
mod tidying;

pub use tidying::tidy;
