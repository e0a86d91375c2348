//! The commands of the program on texts in memory.
//!
//! Each call takes texts and two buffers, for what the command writes and for its line, and returns its status. A text
//! that is longer than its buffer is cut off; its whole length is returned, and the buffer after a text is unchanged.
//! The place at which a refusal points is returned too, as numbers.
//!
//! Proved: status, texts and place are those of the command's verdict on exactly these bytes, or memory ran out: then
//! the status is 11, and the buffers are unchanged. So 9 and 10 never occur. If it is not 11, the status of `check` is
//! 0 iff the source has a core with a derivation, and the status of a command that looks for a derivation is 1 iff the
//! source has a core without one. What is accepted is safe, its waiting messages are isolated in depth, and a compiler
//! may rely on it: what is `val` is immutable for good, objects have single owners, no actor is stuck, and the order of
//! arrivals decides where a schedule leads.
//!
//! How the code is to be read is in `CONTRIBUTING.md` (How to read the code).
#![tactic(auto)]

mod asking;
mod choices;
mod derivations;
mod runs;
mod sources;

pub use choices::{outcomes, play, schedule};
pub use derivations::{judge, upgrade};
pub use runs::{events, run, swap, trace};
pub use sources::{check, explain, places, sends, show};
