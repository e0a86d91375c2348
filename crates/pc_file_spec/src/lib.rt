//! The core of a whole file, as definitions, and their laws.
//!
//! Proved: a file whose names have no fault, with fewer than 2^32 texts, has one core or one fault (`cores_are_one`);
//! its texts differ and each that is needed is there (`texts_are_there`); the core of a file whose parts are where, and
//! in the order that, the grammar requires is formed (`cores_are_formed`). A trait's members have no body; other
//! entities take over methods with a body that are written above them, and none is left out
//! (`members_come_from_above`). The cores of three small files are as written out by hand (`small_files_stand`).
//!
//! How the code is to be read is in `CONTRIBUTING.md` (How to read the code).
#![tactic(auto)]

mod laws;

pub use laws::{
    cores_are_formed, cores_are_one, cores_are_small, members_come_from_above, small_files_stand,
    texts_are_there, traits_inherit,
};
