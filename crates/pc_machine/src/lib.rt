//! The machine that runs a core. It does what the definitions state: the start of a program, each step of an actor, and
//! what an actor is about to touch are exactly those of `pc_semantics`.
//!
//! Proved: `start` and `step` agree with their definitions, `step` in outcome and configuration, for every core, every
//! actor and every configuration that steps reach; `access`, `ahead`, `actor`, `class_of` and the counts are those of
//! the configuration, and do not allocate. If memory runs out, the configuration is unchanged.
//!
//! Not proved: time. A test takes a million steps, but does not measure time.
//!
//! How the code is to be read is in `CONTRIBUTING.md` (How to read the code).
#![tactic(auto)]

mod access;
mod actors;
mod ahead;
mod arguments;
mod beginning;
mod calls;
mod frames;
mod inside;
mod invocations;
mod lookups;
mod machine;
mod moves;
mod plan;
mod planning;
mod returns;
mod state;
mod step;
mod strings;
mod take;

pub use machine::{Machine, start};
pub use pc_semantics::{Access, Ahead, Lack, Outcome};
