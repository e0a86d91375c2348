//! A list of small numbers in which the sum of any prefix, and the place at which the sums pass a number, are found
//! quickly.
//!
//! Proved: a `Tally` is a list of numbers; `push` and `set` change it as a list, `rank` is the sum of a prefix, and
//! `place_of` the place at which the prefix sums pass a number.
//!
//! Not proved: running times. Each call visits one entry per 4,096 numbers and at most 128 others.
//!
//! How the code is to be read is in `CONTRIBUTING.md` (How to read the code).
#![tactic(auto)]

mod levels;
mod tally;

pub use tally::Tally;
