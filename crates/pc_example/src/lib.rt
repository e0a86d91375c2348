//! A small program whose core is formed and whose derivation is valid: the definitions can be satisfied.
//!
//! Proved: the core of a small program is formed, and its derivation valid, with all of its parts written out
//! (`the_core_is_formed`, `the_derivation_is_valid`).
//!
//! How the code is to be read is in `CONTRIBUTING.md` (How to read the code).
#![tactic(auto)]

mod laws;

pub use laws::{the_core_is_formed, the_derivation_is_valid};
