//! The printed text of a tree. `docs/printing.md` describes it, `specs/Printing.antt` defines it.
//!
//! Proved: `print` returns the printed text of a tree, byte by byte. For every file that the tokens of some text spell,
//! the printed text has tokens, and these spell the same file up to spans (`printed_files_are_read`). A file with one
//! actor is printed as written out by hand (`a_small_file_is_printed`).
//!
//! How the code is to be read is in `CONTRIBUTING.md` (How to read the code).
#![tactic(auto)]

mod expression;
mod file;
mod laws;
mod leaves;
mod member;

pub use file::print;
pub use laws::{a_small_file_is_printed, printed_files_are_read};
