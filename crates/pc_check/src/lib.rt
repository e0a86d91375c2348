//! The inference of an annotation: a core's valid annotation, or a proof that there is none.
//!
//! Proved: `check` returns the valid annotation of a core, for every core; or else the first declaration that fails, a
//! node to which no rule applies with the masks that reach it, or a constructor that leaves a field unset, each with
//! notes that prove it. If one of these is returned no annotation is valid, and a core has at most one of them
//! (`faults_are_one`). The notes before a node are the same in any two annotations that reach it (`prefixes_agree`).
//!
//! How the code is to be read is in `CONTRIBUTING.md` (How to read the code).
#![tactic(auto)]

mod checking;
mod fault;
mod inference;
mod laws;
mod slots;
mod sources;

pub use checking::check;
pub use fault::CheckFault;
pub use inference::rules_for;
pub use laws::{
    faults_are_one, nothing_is_derivable_with_a_declaration_that_fails,
    nothing_is_derivable_with_a_field_unset, nothing_is_derivable_without_a_rule, prefixes_agree,
};
pub use pc_sub::DeclFault;
