//! The events of a run that are more than plain steps, each with its clock: messages that are taken and sent, actors
//! and objects that are made, fields that are read and written. `specs/Events.antt` defines which they are, and
//! `docs/events.md` what is written of them.
//!
//! Proved: `accepted_events` returns exactly these events of the run of a safe core, in order, each with the clock of
//! `pc_events`. A message that is taken is the one that the event at its place put into the mailbox. The method of a
//! message is that of the message in the mailbox, and an object that is made is at an address that had none before. The
//! accesses among the events are those of `pc_trace`, and those that conflict are ordered. `write_events` writes their
//! lines, byte for byte, and `write_trace` those of the accesses of `pc_trace`; `push_entity` and `push_method` append
//! the names that these lines have.
//!
//! How the code is to be read is in `CONTRIBUTING.md` (How to read the code).
#![tactic(auto)]

mod deeds;
mod events;
mod lines;
mod method_names;
mod posts;
mod recorder;
mod safe;
mod sight;
mod touch_lines;

pub use events::{Deed, RunEvent};
pub use lines::write_events;
pub use method_names::{push_entity, push_method};
pub use safe::accepted_events;
pub use touch_lines::write_trace;
