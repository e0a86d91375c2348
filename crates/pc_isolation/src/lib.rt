//! Isolation in depth: what fields lead to from a waiting argument is let alone too, and is passed as a whole.
//!
//! Proved, for every formed core with a valid annotation and over every list of actors; each public call does nothing,
//! and its contract is a law of `specs/ValidLaws.antt` or `specs/Examples.antt`. What the laws conclude is in terms of the
//! machine alone (`specs/Laws.antt`):
//! - `valid_is_isolated`: no step touches what is inside a waiting `iso` argument, or an object that leads there; none
//!   writes what is seen from a waiting `iso` or `val` argument; what is inside one argument is neither inside nor seen
//!   from any other.
//! - `valid_is_passed_whole`: until its message is taken, the same objects are inside an argument and seen from it,
//!   with the same contents; the step that takes the message puts the objects among its arguments into slots, and
//!   changes no object.
//! - `waiting_is_seen`: small configurations in which a waiting argument is let alone, and others in which it is not.
//!
//! The proof adds no invariant. It follows fields through the regions of `pc_regions`, whose lemmas state what each
//! place holds (`Mailed` for regions, `Fields` for chains of fields, `Arguments`, `Isolation`); and since nothing that
//! is seen is written, and only accesses change fields (`pc_events`), a step leaves it unchanged (`Reaching`, `Steps`,
//! `Takes`, `Passing`).
//!
//! How the code is to be read is in `CONTRIBUTING.md` (How to read the code).
#![tactic(auto)]

mod laws;

pub use laws::{valid_is_isolated, valid_is_passed_whole, valid_keeps_val, waiting_is_seen};
