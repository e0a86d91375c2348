//! The core of a file, as a relation on the finished core. Definitions, and their laws.
//!
//! Proved: `IsCoreOf` states, of the lists of a core, what each of their parts represents in a file, without saying how
//! the lists are computed. The core computed from a file, member by member, is its core (`made_cores_stand`), and no
//! other core is (`standing_cores_are_made`). A file whose names have no fault, with fewer than 2^32 texts, has a core
//! or a fault of its members (`core_stands_or_fault`). That fault is the first of all faults of its members, in the
//! order of their numbers (`member_faults_are_first`). The members of an entity are stated without a bound on chains of
//! `is`, and are those that are computed (`members_are_computed`). A body's nodes are numbered as they are appended
//! (`nodes_are_numbered`).
//!
//! How the code is to be read is in `CONTRIBUTING.md` (How to read the code).
#![tactic(auto)]

mod laws;

pub use laws::{
    core_stands_or_fault, made_cores_stand, member_faults_are_first, members_are_computed,
    nodes_are_numbered, standing_cores_are_made,
};
