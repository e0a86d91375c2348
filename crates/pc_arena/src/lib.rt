//! An arena: values at places that never move, each named by its number.
//!
//! Proved: An arena is the list of the values that were pushed, with the exchanges applied, and the number of pushes
//! that it has memory for. Only `reserve` may run out of memory, and then no room is lost; `push`, `get` and `exchange`
//! cannot, and their contracts state exactly what they put, find and return. The places are in rows of memory, each
//! with one owner (`Row`): the values, then the unwritten rest, and the right to give the block back. Six functions use
//! the row's pointer and are proved by hand: a place is written before it is read, no value is overwritten, and none is
//! moved out twice.
//!
//! Only tested, in `pc_machine_tests`: that dropping an arena drops each value that it still has, once.
//!
//! Neither proved nor tested: that a block goes back to the allocator when its row is no longer needed (in the logic,
//! what is owned may be forgotten).
//!
//! How the code is to be read is in `CONTRIBUTING.md` (How to read the code).
#![tactic(auto)]

mod arena;
mod chunk;
mod row;

pub use arena::Arena;

// The types of the fields, which contracts on arenas have to name.
#[doc(hidden)]
pub use chunk::Chunk;
#[doc(hidden)]
pub use row::Row;
