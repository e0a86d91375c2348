//! Which fault of a file's names is reported: the first of all.
//!
//! Proved: what can be at fault in a file is stated by relations, without saying how the file is traversed
//! (`specs/Uses.antt`, `Missing.antt`, `Declared.antt`, `Turns.antt`). The passes look for exactly these faults
//! (`faults_are_listed`), and the reported one is the least of all (`told_is_least`). A name is reported as unknown
//! only if it has no meaning; and if a name has no meaning, a fault is reported that is not after it
//! (`unknown_is_missing`).
//!
//! How the code is to be read is in `CONTRIBUTING.md` (How to read the code).
#![tactic(auto)]

mod laws;

pub use laws::{faults_are_listed, told_is_least, unknown_is_missing};
