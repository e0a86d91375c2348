//! The derivation text: an annotation as lines of bytes, written and read back, in two versions.
//!
//! Proved: `write` returns the text of an annotation in version 1 and `write2` that in version 2, and `read` reads them
//! back. `read` is Ok iff the bytes are the text of an annotation in some version, and then returns that annotation;
//! otherwise it names the first malformed line, or reports that a count exceeds its limit; no bytes are the text of two
//! annotations or have two faults. `Lines` takes a text in pieces of any length, and does not allocate: its lines are
//! those of the annotation read, with each node's own masks in both versions, and its first fault is that of `read`.
//!
//! Not proved: running times. Tests use the example's text, its cuts and variants, and measure no time.
//!
//! How the code is to be read is in `CONTRIBUTING.md` (How to read the code).
#![tactic(auto)]

mod fault;
mod front;
mod laws;
mod line;
mod line_state;
mod lines;
mod number_writing;
mod numbers;
mod pieces;
mod reading;
mod version;
mod vocabulary;
mod writing;

pub use fault::DerivFault;
pub use laws::{annotations_are_one, faults_are_one, pieces_are_read};
pub use line::{Line, LineFault};
pub use pieces::Lines;
pub use reading::read;
pub use version::Version;
pub use writing::{write, write2};
