//! Laws of records, images, save and load: no code.
#![tactic(auto)]
