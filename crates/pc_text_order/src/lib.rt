//! The order in which tokens, and the names of trees, are in a text.
//!
//! Proved: the tokens of a text ascend and end with `End` (`tokens_are_in_order`), and so do the names in the bodies
//! and declarations of a file that they spell (`names_are_in_order`).
//!
//! How the code is to be read is in `CONTRIBUTING.md` (How to read the code).
#![tactic(auto)]

mod laws;

pub use laws::{names_are_in_order, tokens_are_in_order};
