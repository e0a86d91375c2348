//! Vector clocks: for each actor how many events of every actor it knows, and the same for each waiting message.
//!
//! Proved: after an event an actor's clock has one number for each actor, the greater of its own and that of the
//! message it took, and one more for the actor itself. A message that is sent carries its sender's clock. These are the
//! definitions of `specs/Seats.antt`.
//!
//! How the code is to be read is in `CONTRIBUTING.md` (How to read the code).
#![tactic(auto)]

mod clock;
mod letters;
mod seat;
mod seats;

pub use letters::Letters;
pub use seat::Seat;
pub use seats::Seats;
