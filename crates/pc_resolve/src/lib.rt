//! The meaning of the names in the body of a method.
//!
//! Proved: the meaning of a name in a body is exactly that of the definitions, given the visible locals and parameters,
//! the fields, methods and entities; `Scope` finds what is visible by its name.
//!
//! How the code is to be read is in `CONTRIBUTING.md` (How to read the code).
#![tactic(auto)]

mod constructors;
mod context;
mod entities;
mod index;
mod local_slots;
mod meaning;
mod name_row;
mod near;
mod params;
mod scope;

pub use constructors::{Constructor, Constructors};
pub use context::Context;
pub use entities::Known;
pub use local_slots::{LocalSlots, Placed};
pub use meaning::{Meaning, TypeMeaning};
pub use params::params_scope;
pub use scope::{Scope, Visible, enter, slot_of};
