//! Laws of decimal numbers, of lines and of commands: no code.
#![tactic(auto)]
