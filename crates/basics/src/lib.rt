//! Laws of truth values, of questions below a bound, of bytes and of stores one after the other: no code.
#![tactic(auto)]
