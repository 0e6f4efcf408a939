//! Laws of the calls on a schedule, of their checks and answers: no code.
#![tactic(auto)]
