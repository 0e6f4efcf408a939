//! Laws of blocks in endless time, of classes, of nodes and trees, and of sound schedules: no code.
#![tactic(auto)]
