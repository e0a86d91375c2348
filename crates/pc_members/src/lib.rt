//! The names of a file's entities, which of them is above which by the `is` lists, and the members of each.
//!
//! Proved: `NameTable` finds exactly the names that it contains, by number and by name; `close` of the `is` lists gives
//! for each entity exactly the entities to which a chain of `is` leads; `has_added` says whether `create` is added;
//! `list_members` gives exactly the members of each entity: its own, an added `create`, and what it takes over.
//!
//! How the code is to be read is in `CONTRIBUTING.md` (How to read the code).
#![tactic(auto)]

mod constructors;
mod edges;
mod inherited;
mod known;
mod member;
mod reach;
mod table;
mod texts;
mod traits;

pub use constructors::{has_added, is_new};
pub use edges::{list_edges, number_names};
pub use inherited::{list_members, own_part};
pub use member::Member;
pub use reach::close;
pub use table::NameTable;
pub use texts::{add_methods, add_texts};
pub use traits::rank_of;
