//! For parsers built on this one: single tokens, names and types, and two rules with the number of levels left. Here a
//! token is given by its place in the list of tokens.
pub use crate::asking::local_word;
pub use crate::atoms::{maybe_cap, name, type_name, written_type};
pub use crate::parsing::fault;
pub use crate::rules::{infix, seq};
pub use crate::stop::ParseStop;
pub use crate::tokens::{after_comma, look, take_sign, take_word};
