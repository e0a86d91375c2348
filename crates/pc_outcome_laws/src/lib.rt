//! The law about tables of outcomes: a core and a count have only one answer.
//!
//! Proved: whatever is answered for a core and a count, a table or the seed that passes a limit, it is the only answer,
//! unless memory ran out (`answers_are_one`).
//!
//! How the code is to be read is in `CONTRIBUTING.md` (How to read the code).
#![tactic(auto)]

mod laws;

pub use laws::answers_are_one;
