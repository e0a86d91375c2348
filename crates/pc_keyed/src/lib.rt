//! Keys for hash tables, made of the names of a source: whoever chooses the names changes the key with them, and so
//! cannot choose them for a key that is known beforehand.
//!
//! What a table contains and finds does not depend on its key, so nothing is proved about a key except that making one
//! is safe and terminates.
//!
//! How the code is to be read is in `CONTRIBUTING.md` (How to read the code).
#![tactic(auto)]

mod key;
mod name_keys;

pub use key::KeyedBy;
pub use name_keys::keyed_by_names;
