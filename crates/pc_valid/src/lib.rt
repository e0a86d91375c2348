//! Derivations: the 31 typing rules as records of their condition, their type and their masks, over subtyping as a
//! relation, and when an annotation of a core is valid. This crate has no code: the crates above prove that what they
//! compute is this.
//!
//! - `specs/Words.antt`: types, places and masks; slots, fields and methods by their names; when a value may go where another
//!   is wanted.
//! - `specs/Valid.antt`: the rules, and valid annotations.
//! - `specs/NoRule.antt`: what shows that a core has none.
//!
//! How the code is to be read is in `CONTRIBUTING.md` (How to read the code).
#![tactic(auto)]
