//! Pieces of a source in words: its bytes as they are shown, pieces between backquotes, places, and the line of a span
//! with carets below it.
//!
//! Proved: each function appends exactly the bytes of its definition, or memory ran out. Bytes that a terminal would
//! obey are shown as dots; there is a caret below each character of the span, and a tab below each tab before it; a
//! piece is written in one line and cut if it is long, without splitting a character.
//!
//! How the code is to be read is in `CONTRIBUTING.md` (How to read the code).
#![tactic(auto)]

mod appending;
mod bytes;
mod heads;
mod marks;
mod numbers;
mod pieces;
mod places;
mod quoting;
mod window;

pub use appending::push_bytes;
pub use bytes::shown;
pub use heads::push_head;
pub use numbers::push_number;
pub use pieces::piece_of;
pub use places::push_place;
pub use quoting::{push_piece, push_quoted};
pub use window::push_window;
