//! The accesses of a run with their clocks, and whether those that conflict are ordered.
//!
//! `specs/Traces.antt` defines what is reported. Two accesses conflict if they are of different actors, touch the same
//! field of the same object, and one of them writes (`pc_events`). The clock of an event has, for each actor, the
//! number of its events that are this one or come before it. One event comes before another if both are of one actor
//! and it is the earlier one, if it puts a message into a mailbox and the other takes this message, or by a chain of
//! these.
//!
//! Proved: `trace` reports exactly the accesses of the run, with these clocks, for any core; its verdict names the
//! first event that is not ordered with an earlier one that it conflicts with, and the latest such earlier one, or
//! there is none. `accepted_trace` reports the same of a safe core, for which there is none.
//!
//! How the code is to be read is in `CONTRIBUTING.md` (How to read the code).
#![tactic(auto)]

mod clash;
mod fault;
mod following;
mod lasts;
mod recorder;
mod row;
mod steps;
mod touch;
mod tracing;

pub use fault::{AcceptedFault, TraceFault};
pub use following::follow;
pub use steps::{first_seats, moved, room};
pub use touch::{Touch, Trace, Verdict};
pub use tracing::{accepted_trace, trace};
