//! The steps of a list of actors, one after another, in a machine whose core never lacks anything.
//!
//! Proved: `take_steps` takes a machine that was just started through its list, or stops at the first step that would
//! make too long a text and names its place. It requires that no step of the core lacks anything, over any list of
//! actors.
//!
//! How the code is to be read is in `CONTRIBUTING.md` (How to read the code).
#![tactic(auto)]

mod fault;
mod steps;

pub use fault::StepsFault;
pub use steps::take_steps;
