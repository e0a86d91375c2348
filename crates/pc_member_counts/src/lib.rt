//! The number of members of each entity of a file, without listing them.
//!
//! Proved: `count_members` gives for each entity the length of the list of its members.
//!
//! The names of a file's methods are numbered, and processed 64 at a time. For each trait and interface a block of
//! masks describes the first method with each of these names; so an entity that names it costs a few operations on
//! masks, whatever the number of its methods.
//!
//! How the code is to be read is in `CONTRIBUTING.md` (How to read the code).
#![tactic(auto)]

mod block;
mod counting;
mod fresh;
mod listing;
mod numbers;
mod order;
mod plan;
mod window;

pub use counting::count_members;
