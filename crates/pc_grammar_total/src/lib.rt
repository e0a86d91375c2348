//! The grammar always has an answer.
//!
//! Proved: for every list of tokens that ends with `End`, exactly one of the grammar's answers holds, and the tokens
//! that can be too deep are exactly those that open a level. This holds for sequences, expressions, expressions without
//! `=` (`sequences_are_answered`, `expressions_are_answered`, `infixes_are_answered`) and files (`files_are_answered`).
//!
//! How the code is to be read is in `CONTRIBUTING.md` (How to read the code).
#![tactic(auto)]

mod laws;

pub use laws::{
    expressions_are_answered, files_are_answered, infixes_are_answered, sequences_are_answered,
};
