//! Schedules: which actor takes how many turns. `docs/schedules.md` describes their text, `specs/Schedules.antt`
//! defines it.
//!
//! Proved: `read` is Ok with the turns that a schedule's text spells, or else names the first word that spells none or
//! makes them too many; a text has turns or one first fault, and not both.
//!
//! Not proved: running times. Tests reach the limits, but measure no time.
//!
//! How the code is to be read is in `CONTRIBUTING.md` (How to read the code).
#![tactic(auto)]

mod fault;
mod laws;
mod reading;
mod turns;

pub use fault::SchedFault;
pub use laws::{faults_are_told, turns_are_one};
pub use reading::read;
pub use turns::Turn;
