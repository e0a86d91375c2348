//! The text of a core's places: its entities, fields, methods, slots and nodes, each with its name and its place in the
//! source. `docs/places.md` describes the text, `specs/Text.antt` defines it.
//!
//! Proved: `write_places` returns the whole text, byte for byte. A name is that of the core, or is at its place in the
//! source; the places and children of nodes are those of the core. `tokens_of` returns the tokens of a source that has
//! tokens.
//!
//! How the code is to be read is in `CONTRIBUTING.md` (How to read the code).
#![tactic(auto)]

mod kinds;
mod lines;
mod locals;
mod text;
mod tokens;
mod words;

pub use text::write_places;
pub use tokens::tokens_of;
