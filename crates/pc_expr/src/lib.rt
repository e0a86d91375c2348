//! The parser of sequences and expressions: the tree that tokens spell, or the first token that rules one out.
//! `docs/grammar.md` has the grammar in words.
//!
//! Proved: `seq`, `expr` and `infix` return the tree that the tokens spell from a place on, up to the first token that
//! does not continue it; or name the first token with which nothing continues, or which opens a level too many.
//! Whichever of these holds for the tokens is the result, or memory ran out.
//!
//! How the code is to be read is in `CONTRIBUTING.md` (How to read the code).
#![tactic(auto)]

mod asking;
mod atoms;
mod fault;
pub mod parsers;
mod parsing;
mod rules;
mod spans;
mod stop;
mod tokens;

pub use fault::ParseFault;
pub use parsing::{LEVELS, expr, infix, seq};
