//! The lines of refusals, and the places in a text that they name. The lines are definitions: the crates above prove
//! that what they write is this. `place_of` and `place_after` find a place.
//!
//! `specs/Lines.antt` has each line that is written on standard error and the first line of `make`, the line and the column
//! of a byte, and the line that names a byte of a file.
//!
//! How the code is to be read is in `CONTRIBUTING.md` (How to read the code).
#![tactic(auto)]

mod place;

pub use place::{Place, place_after, place_of};
