//! The grammar of files, sequences and expressions: which tokens spell which tree, how they are read with one token of
//! lookahead, and that this reading is right.
//!
//! Proved: which tokens spell which sequence, expression and file is defined line by line as in the grammar, and
//! reading with one token of lookahead is right: what is read is what is spelled, a refused token is the first with
//! which nothing continues, a token that opens a level too many is the first to do so, and tokens spell at most one
//! tree (`sequences_are_read`, `expressions_are_read`, `infixes_are_read`). The same holds for files, and for a whole
//! list of tokens: at most one answer holds, and reading gives it (`files_are_read`).
//!
//! How the code is to be read is in `CONTRIBUTING.md` (How to read the code).
#![tactic(auto)]

mod asking;
mod laws;

pub use asking::{begins_item, cap_of, op_of};
pub use laws::{expressions_are_read, files_are_read, infixes_are_read, sequences_are_read};
