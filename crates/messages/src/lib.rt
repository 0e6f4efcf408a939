//! The laws of the subrate messages: no code.
#![tactic(auto)]
