//! Pseudorandom numbers drawn from a seed, for generated programs and for chosen schedules.
//!
//! Proved: `Draws::new` starts with the state of a seed, and each `draw` moves on to the next state and returns the
//! number that this state yields.
//!
//! How the code is to be read is in `CONTRIBUTING.md` (How to read the code).
#![tactic(auto)]

mod draws;

pub use draws::Draws;
