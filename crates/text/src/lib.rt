//! A text: places, words and decimal numbers in it, read and written.
#![tactic(auto)]

mod reading;
mod writing;

pub use reading::{find, is_word, opens, read_row, split_line};
pub use writing::{
    put_count, put_decimal, put_refused, put_row, put_spaced, put_word, refusal_number,
};
