//! The probe's lines that lend a list of numbers.
#![tactic(auto)]

mod lending;
mod reporting;
mod tidying;

pub use lending::blank;
pub use reporting::{Asked, asked_of, perform_reports};
use rules::LONGEST_ANSWER;
pub use tidying::{perform_tidy, tidy_asked};

/// The most entries of a list of answers: most_entries of specs/Lines.
pub const MOST_ENTRIES: usize = 128;

// The most reports of a line: most_listed.
const MOST_LISTED: usize = 128;

/// The most numbers of a line: longest_row.
pub const LONGEST_ROW: usize = 1 + 2 * MOST_LISTED;

/// The most numbers of a list of moves, and of any line's list: most_moves.
pub const MOST_MOVES: usize = 400;

/// The most bytes that a line prints, a space and ten digits for each number: longest_line.
pub const LONGEST_LINE: usize = LONGEST_ANSWER + 11 * MOST_MOVES;
