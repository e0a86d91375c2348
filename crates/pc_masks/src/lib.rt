//! Masks: sets of at most 64 small numbers, each a bit of one word.
//!
//! Proved: what each operation does to each number.
//!
//! How the code is to be read is in `CONTRIBUTING.md` (How to read the code).
#![tactic(auto)]

mod mask;

pub use mask::Mask;
