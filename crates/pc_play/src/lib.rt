//! Plays: a machine that chooses its steps by a seed, from the start of a program to the end of its list.
//! `docs/schedules.md` explains what is chosen.
//!
//! Proved: `play` writes what the run of the seed's list writes, with the same results and faults as `run` of `pc_run`;
//! it keeps no list. `play_through` only takes the steps, and returns the machine and its progress. The line of a
//! seed's list fits a schedule (`lines_fit`).
//!
//! How the code is to be read is in `CONTRIBUTING.md` (How to read the code).
#![tactic(auto)]

mod laws;
mod playing;

pub use laws::lines_fit;
pub use playing::{Through, play, play_through};
