//! The parser of files: the tree that the tokens of a text spell, or the first token that rules one out.
//! `docs/grammar.md` has the grammar in words.
//!
//! Proved: `file` returns the tree that the tokens spell, all of them, within 200 levels; or names the first token with
//! which no file begins any more, or which opens a level too many. Whichever of these holds for the tokens is the
//! result, or memory ran out.
//!
//! How the code is to be read is in `CONTRIBUTING.md` (How to read the code).
#![tactic(auto)]

mod entities;
mod fields;
mod levels;
mod methods;
mod parameters;
mod parsing;
mod provides;
mod tokens;
mod types;

pub use parsing::file;
pub use pc_expr::ParseFault;
