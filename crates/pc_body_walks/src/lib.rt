//! Walks over the bodies of a file in the order of the text: a body's first fault, its locals with their slots, and the
//! names after a `.`.
//!
//! Proved: `check` returns exactly the first fault of a body, `locals` its locals and `add_texts` the names after a
//! `.`, in order; `slots` gives each local its slot.
//!
//! How the code is to be read is in `CONTRIBUTING.md` (How to read the code).
#![tactic(auto)]

mod checks;
mod definitions;
mod dot_texts;
mod fault;
mod faults;
mod local;
mod placing;
mod starts;

pub use definitions::{added_locals, locals};
pub use dot_texts::add_texts;
pub use fault::BodyFault;
pub use faults::{check, check_added};
pub use local::Local;
pub use placing::slots;
