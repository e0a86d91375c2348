//! The nodes of the body of a method, in the order of evaluation.
//!
//! Proved: `emit` appends exactly the nodes to which a body elaborates, or reports that there are too many.
//!
//! How the code is to be read is in `CONTRIBUTING.md` (How to read the code).
#![tactic(auto)]

mod bodies;
mod chains;
mod name_nodes;
mod nodes;
mod setting;
mod stop;
mod tops;
mod waiting;
mod walk;

pub use bodies::{emit, emit_added};
pub use stop::EmitStop;
