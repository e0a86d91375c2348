//! The judge that reads a derivation's text in pieces.
//!
//! Proved: however the bytes are cut, `Stream` returns what reading the whole text and judging its annotation would: it
//! ends with Ok iff the bytes are the text of a valid annotation, in either version, and otherwise with the fault of
//! the text, or with the first fault of the annotation. Each node is decided by asking a referee, in order, up to the
//! first fault (`IsAsked`); for the text of a valid annotation every node is asked about (`valid_asks_all`). The state
//! consists of the types of the slots and the notes of the nodes without a parent so far. `judge_file` does the same
//! with a file, of which it holds one part at a time. A node's children are the last of the nodes without a parent, and
//! a body's are the only ones (`children_wait_last`); the notes of these nodes determine, whatever notes follow,
//! whether the next node satisfies its rule (`waiting_notes_tell`). So a judge needs to keep no other notes.
//!
//! How the code is to be read is in `CONTRIBUTING.md` (How to read the code).
#![tactic(auto)]

mod fault;
mod judging;
mod laws;
mod nodes;
mod parts;
mod reading;
mod stream;

pub use fault::StreamFault;
pub use laws::{
    children_wait_last, one_end, one_list_is_asked, valid_asks_all, waiting_notes_tell,
};
pub use parts::{DERIVATION_LIMIT, DerivationFault, judge_file};
pub use stream::Stream;
