//! Runs of accepted programs: a program with a valid annotation runs without races, and without lacking anything.
//!
//! Proved: `accepted_runs` runs a core that has a valid annotation. Over every list of actors no step lacks anything,
//! and for the list that is run, the machine is the one after it, or the list comes to a text that is too long, at the
//! place that is named. `accepted_is_safe` does the same, and promises that the core is safe: over every list of
//! actors, no two race, waiting messages are let alone, and no step lacks anything. `derivable_is_safe` states this of
//! every core that has a valid annotation. `entities` of `pc_noted_receivers` is exported here too: what a valid
//! annotation notes of receivers is held by every run. Both runs stop with a `SafeFault`, which is the `StepsFault` of
//! `pc_list_steps`.
//!
//! How the code is to be read is in `CONTRIBUTING.md` (How to read the code).
#![tactic(auto)]

mod runs;
mod safe;

pub use pc_list_steps::StepsFault as SafeFault;
pub use pc_noted_receivers::entities;
pub use runs::accepted_runs;
pub use safe::{accepted_is_safe, derivable_is_safe};
