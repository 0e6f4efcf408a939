//! The image: a schedule as bytes, and bytes as a schedule.
#![tactic(auto)]

mod loading;
mod saving;
mod writing;

pub use loading::load;
pub use saving::save;
