//! Schedules from lists of steps: the steps of a schedule's turns as one list, and a list as the line of a schedule.
//!
//! Proved: `steps_of` returns the actors of all steps of some turns. `line_of` writes one line that is a schedule of
//! exactly the steps of a list, in which each maximal row of steps of one actor is one word; a list has only one such
//! line (`lines_are_one`).
//!
//! How the code is to be read is in `CONTRIBUTING.md` (How to read the code).
#![tactic(auto)]

mod laws;
mod lines;
mod rows;
mod spreading;

pub use laws::lines_are_one;
pub use lines::line_of;
pub use spreading::steps_of;
