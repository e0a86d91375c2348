//! The verdicts of the program: for any words there is one, whatever bytes their files have.
//!
//! Proved: there is a verdict (`there_is_a_verdict`), and `verdict_is_one` of `pc_top` states that there is no other.
//! So running out of memory is the only answer that is always allowed (`eleven_is_the_one_free_answer`): a call in
//! which nothing failed answers 11 or that verdict.
//!
//! How the code is to be read is in `CONTRIBUTING.md` (How to read the code).
#![tactic(auto)]

mod laws;

pub use laws::{eleven_is_the_one_free_answer, there_is_a_verdict};
