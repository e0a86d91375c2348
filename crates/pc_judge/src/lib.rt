//! The judge: whether an annotation of a core is valid, and otherwise its first fault.
//!
//! Proved: `judge` is Ok iff an annotation is valid for a core, and otherwise returns exactly the first fault; it does
//! not allocate. There is at most one first fault, and none if the annotation is valid.
//!
//! How the code is to be read is in `CONTRIBUTING.md` (How to read the code).
#![tactic(auto)]

mod examples;
mod faults;
mod judging;
mod laws;
mod nodes;
mod slots;

pub use examples::faults_of_small_derivations;
pub use faults::JudgeFault;
pub use judging::judge;
pub use laws::{faulted_is_not_valid, one_fault_is_first};
