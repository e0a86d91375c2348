//! What `explain` does with a core, or with the fault of a tree that has none.
//!
//! This is the last part of the command, after its file was read. It is beside `pc_commands`, which has that of the
//! other commands, so that none of these waits for the crates of explanations; `pc_top` reads, and calls it.
//!
//! Proved: the text says that a core is accepted, or why it has no derivation, or what is wrong with the names of its
//! file; or a limit of names that is passed is refused, as `check` refuses it (`Explaining`).
//!
//! For what is proved of definitions alone there is a lemma: which statuses its refusals have.
//!
//! How the code is to be read is in `CONTRIBUTING.md` (How to read the code).
#![tactic(auto)]

mod explain;

pub use explain::{explain_fault, write_core};
