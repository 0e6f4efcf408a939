//! Reports of a whole cycle at once: a lent list of reports, and a lent list that receives one answer for each.
#![tactic(auto)]

mod coding;
mod listing;
mod pairing;

pub use listing::report_all;
pub use pairing::report_pairs;
