//! The names of a file: the numbers of its entities, what is above each by its `is` lists, and that it has a `Main`.
//!
//! Proved: `collect` gives the numbers of a file's entities, its other texts, and the entities above each by its `is`
//! lists if its names have no fault, and otherwise the first fault, pass by pass. `entity` is exact. The file
//! determines what is above each entity; a file has either a first fault or its names (`specs/Laws.antt`).
//!
//! Only tested: names and limits, at the limit and one past it.
//!
//! How the code is to be read is in `CONTRIBUTING.md` (How to read the code).
#![tactic(auto)]

mod collected_names;
mod collecting;
mod counts;
mod cycles;
mod declarations;
mod entities;
mod fault;
mod laws;
mod mains;
mod texts;

pub use collected_names::Names;
pub use collecting::collect;
pub use fault::{NameFault, Which};
pub use laws::{cycles_are_chains, first_is_least, names_are_one};
pub use texts::add_member_texts;
