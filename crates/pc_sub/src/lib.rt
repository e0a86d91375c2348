//! Subtypes between entities, and when the declarations of a program fit each other.
//!
//! Proved: `is_sub` is the order between entities, by chains of `is` and, below an interface, by the methods that an
//! entity has. `conforms` says whether it has them. `declarations` is Ok iff the declarations fit, and otherwise names
//! the first that does not. `tabulate` gives a core its tables, and `is_sub`, `conforms` and `declarations` return the
//! same with them as without; how long they take is not proved.
//!
//! How the code is to be read is in `CONTRIBUTING.md` (How to read the code).
#![tactic(auto)]

mod alike;
mod chains;
mod checks;
mod conforming;
mod examples;
mod faults;
mod groups;
mod laws;
mod parameters;
mod serving;
mod stands;
mod subtypes;
mod tables;
mod traits;

pub use checks::declarations;
pub use conforming::conforms;
pub use examples::{faults_of_small_declarations, subtypes_of_small_declarations};
pub use faults::DeclFault;
pub use laws::{
    first_fault_is_computed, no_fault_where_declarations_fit, one_declaration_fails_first,
};
pub use subtypes::is_sub;
pub use tables::tabulate;
