//! Runs of the library's calls, and the customer's demands over every one of them: definitions and proofs, and no code.
#![tactic(auto)]
