//! Annotations: what a derivation states about each slot and each node of a core. Types only.
//!
//! How the code is to be read is in `CONTRIBUTING.md` (How to read the code).
#![tactic(auto)]

mod annotation;

pub use annotation::{Ann, Note, Rule};
