//! What commands do with a core: how a program runs, and what is said of it.
//!
//! Each function here is the last part of a command, after its files were read and its source has a core. Nothing here
//! reads a file or makes a core, so none of it waits for the elaboration; `pc_top` reads, and calls these. That of
//! `explain` is in `pc_explain_command`, above the crates of explanations.
//!
//! Proved, of each file of its name:
//! - `run`, `play`, `make`: what went to out is the text of the run, or a part of it with the cause, and the verdict
//!   is that of the run (`Ran`, `RanChosen`, `RanMade`).
//! - `schedule`: the line is that of the list that the seed chooses (`IsChosenLine`).
//! - `trace`, `events`: the text has all accesses, or all events, of the run with their clocks (`Tracing`,
//!   `EventsTelling`).
//! - `swap`: the text reports on the two turns at a place (`Swapping`), and which words are a place (`IsPlace`).
//! - `outcomes`: the text is that of the table of the outcomes (`OutcomesTelling`), and which words are a count
//!   (`IsCount`).
//! - `sends`: the text is that of the one table of who sends what (`IsSendsText`).
//! - `check`, `upgrade`: the text is that of an annotation, in version 1 and in version 2.
//!
//! For what is proved of definitions alone there are lemmas: each of these has at most one verdict, and which statuses
//! its refusals have.
//!
//! How the code is to be read is in `CONTRIBUTING.md` (How to read the code).
#![tactic(auto)]

mod check;
mod events;
mod make;
mod outcomes;
mod play;
mod run;
mod schedule;
mod sends;
mod sent_lines;
mod swap;
mod trace;
mod upgrade;

pub use check::write_derivation;
pub use events::tell_turns;
pub use make::{read_numbers, run_generated};
pub use outcomes::{count_of, write_outcomes};
pub use play::play_core;
pub use run::run_turns;
pub use schedule::write_chosen;
pub use sends::write_sends;
pub use swap::{place_of, swap_scheduled};
pub use trace::trace_turns;
pub use upgrade::upgrade_annotation;
