//! From the tree of a file and its names to its core.
//!
//! Proved: `elaborate` returns the core of a file, or its first fault, for every file that tokens spell and whose names
//! were collected; that core is formed and small (`cores_are_formed`).
//!
//! How the code is to be read is in `CONTRIBUTING.md` (How to read the code).
#![tactic(auto)]

mod elaborating;
mod entities;
mod known;
mod language;
mod laws;
mod members;
mod parts;
mod signature;
mod slots;
mod texts;

pub use elaborating::elaborate;
pub use laws::cores_are_formed;
