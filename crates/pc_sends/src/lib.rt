//! Which entity's methods may send which messages, over every run at once: the metatheory of accepted programs, run as
//! a check. Its input is the entity that is noted of each node's value, and it goes through all methods that may ever
//! begin.
//!
//! Proved: `sends` returns exactly the pairs of the definitions (`specs/Tables.antt`), what is never sent and what is
//! reached, each once and in order. If what is noted is held (`specs/Held.antt`), then over every list of actors each
//! frame is of a method that is reached, each message that is sent has its row, and nothing that is never sent waits in
//! a mailbox (`held_covers`). At a call on a trait or an interface, the methods of exactly the entities that conform to
//! it are looked at.
//!
//! How the code is to be read is in `CONTRIBUTING.md` (How to read the code).
#![tactic(auto)]

mod calls;
mod conforming;
mod found;
mod laws;
mod messages;
mod never;
mod reaching;
mod rows;
mod sending;
mod sorting;
mod table;
mod walk;

pub use laws::{held_covers, what_is_never_sent};
pub use sending::sends;
pub use table::{Row, Table};
