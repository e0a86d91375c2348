//! What a caller passes in and gets back: texts, which become files in memory, buffers, into which texts are copied,
//! and the place at which a line points.
//!
//! Proved: `make_files` gives each text the name that lines use for it; `lay` fills a buffer with as much of a text as
//! there is room for, leaves the rest of it unchanged, and returns the text's whole length; `find_place` finds the byte
//! of a text that a line names, with the end of the piece that starts there, if there is one; `hand_over` hands over a
//! command's status, its texts and their place, or leaves the buffers unchanged if the status is 11.
//!
//! The piece is a word of a schedule, or the span at which a source is refused, which `refused_span` returns. A source
//! has at most one such span (`spans_are_one`), and the line by which it is refused names its first byte
//! (`lines_name_spans`).
//!
//! How the code is to be read is in `CONTRIBUTING.md` (How to read the code).
#![tactic(auto)]

mod answer;
mod beside;
mod core_spans;
mod corners;
mod ends;
mod finding;
mod fronts;
mod handing;
mod laws;
mod laying;
mod marks;
mod place;
mod pointing;
mod refused;
mod start;

pub use answer::{Answer, refuse_memory};
pub use beside::{Beside, make_files};
pub use handing::hand_over;
pub use laws::{lines_name_spans, spans_are_one};
pub use place::Place;
pub use refused::refused_span;
