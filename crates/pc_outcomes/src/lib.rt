//! The outcomes of a program: what the plays of some seeds print and how they end, each different outcome once.
//! `docs/schedules.md` explains what an outcome is.
//!
//! Proved: `outcomes` returns the table of the seeds below a count, or it names the seed whose play passes one of the
//! two limits, or memory ran out. Each entry of the table has the outcome and the steps of its first seed and the
//! number of seeds with this outcome, every seed's outcome is in it, no two are equal, and the first seeds ascend.
//! `text_of` writes a table as text.
//!
//! Not proved: that these are all outcomes of a program. The seeds are a sample of its schedules.
//!
//! How the code is to be read is in `CONTRIBUTING.md` (How to read the code).
#![tactic(auto)]

mod entries;
mod entry;
mod fault;
mod playing;
mod table;
mod text;

pub use entry::{Ending, Entry};
pub use fault::OutcomesFault;
pub use table::outcomes;
pub use text::text_of;
