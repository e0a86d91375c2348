//! Why a core has no derivation, in words.
//!
//! Proved: `explain_core` writes an explanation of the fault for which `check` refuses a core, or memory ran out: the
//! refusal's line and the source's line with carets, what the node is and what its parts are, and for each rule that is
//! looked at, its first condition that does not hold, with what to do about it. A core has at most one explanation
//! (`explanations_are_one`), and one that has a derivation has none (`accepted_has_none`).
//!
//! How the code is to be read is in `CONTRIBUTING.md` (How to read the code).
#![tactic(auto)]

mod declarations;
mod explaining;
mod known;
mod laws;
mod rule_lines;
mod setting;

pub use explaining::explain_core;
pub use laws::{accepted_has_none, explanations_are_one};
pub use rule_lines::Reported;
