//! The entities that a valid annotation notes, which are right in every run.
//!
//! Proved: `entities` returns the entity of each node's noted type. Over every list of actors, if an actor's next task
//! is a call, the receiver's own entity is the one that is noted at its node, or conforms to it (`accepted_held`). This
//! needs no invariant of its own: it holds in every well-typed configuration.
//!
//! How the code is to be read is in `CONTRIBUTING.md` (How to read the code).
#![tactic(auto)]

mod laws;
mod noted;

pub use laws::accepted_held;
pub use noted::entities;
