//! The core of a program: its entities, methods, slots and nodes as lists in which everything is referred to by number.
//!
//! Proved: a core is formed, in all its parts, as an invariant of its type; `field` and `method` find exactly what is
//! there, and `method` returns the same with an index of the methods as without one. How long a look-up takes is not
//! proved.
//!
//! How the code is to be read is in `CONTRIBUTING.md` (How to read the code).
#![tactic(auto)]

mod children;
mod conforming;
mod cores;
mod declarations;
mod entity_set;
mod index;
mod kinds;
mod lookup;
mod nodes;

pub use children::Children;
pub use cores::Core;
pub use declarations::{EntityDef, FieldInfo, Method, MethodKind, ParamInfo};
pub use entity_set::EntitySet;
pub use kinds::{Connective, Operation};
pub use nodes::{Node, NodeKind, Slot, SlotKind};
