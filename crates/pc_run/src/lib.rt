//! Runs: a machine takes the turns of a schedule, and then what was printed is written, with the run's numbers.
//! `docs/machine.md` says what is written and when.
//!
//! Proved: `run` lets a machine take the turns of a schedule, and writes the text of this run. Its report has the run's
//! numbers, or it names the step that is too long, or the sink failed, which its count of failures shows, or memory ran
//! out. What was written is the whole text of the run, or a prefix of it if the sink failed or memory ran out; the
//! machine is left after the steps of the turns. It requires that no step of the core lacks anything, over any list of
//! actors. `put_run` only writes, for steps that were taken in another way.
//!
//! Only tested: that each text is one call of `put`.
//!
//! How the code is to be read is in `CONTRIBUTING.md` (How to read the code).
#![tactic(auto)]

mod counts;
mod report;
mod running;
mod turns;
mod writing;

pub use counts::{Counts, Progress};
pub use report::{Report, RunFault};
pub use running::{put_run, run};
pub use writing::put_texts;
