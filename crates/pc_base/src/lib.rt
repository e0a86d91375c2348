//! What all crates use: the small types `Span`, `List`, `SharedList` and `ShortBytes`, the limits of a program, and the
//! vocabulary for lists, options and booleans with its laws.
//!
//! Proved: `List<T>` is a list, and may occur in recursive types; `SharedList<T>` is a list that never changes, whoever
//! else owns it; `ShortBytes` is a list of bytes that never changes.
//!
//! - `specs/Lists.antt`: the place of the first element with a name; the next step of a computation that may have no
//!   result; a property of every element, an element of a list, a list without repetitions, an ascending list; adjacent
//!   runs of numbers; texts.
//! - `specs/Counts.antt`: a test counted as a number.
//! - `proofs/Bools.antt`, `proofs/Options.antt`: what follows from a test or a step.
//! - `proofs/Gets.antt`: the element at a place, after a push, a write, a cut or a map.
//! - `proofs/Elements.antt`: elements of lists, and lists without repetitions.
//! - `proofs/Cuts.antt`: prefixes and suffixes of a list.
//! - `proofs/Ranges.antt`, `proofs/Lookup.antt`: laws of runs, and of finding a place by a name.
//! - `proofs/Prefixes.antt`: the number of bytes at the start of a text that pass a test.
//!
//! How the code is to be read is in `CONTRIBUTING.md` (How to read the code).
#![tactic(auto)]

mod limits;
mod list;
mod shared;
mod short_bytes;
mod span;

pub use limits::{
    ENTITY_LIMIT, FIELD_LIMIT, METHOD_LIMIT, NODE_LIMIT, PROGRAM_SLOT_LIMIT, SLOT_LIMIT, TEXT_LIMIT,
};
pub use list::List;
pub use shared::SharedList;
pub use short_bytes::ShortBytes;
pub use span::Span;
