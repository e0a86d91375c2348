//! A refused node and its parts in words.
//!
//! Proved: the line about a node says what it is and in which method, and there is a line for each child whose type the
//! node's rules look at, in the order of evaluation, with the type of the child's note; each line has exactly the bytes
//! of its definition, or memory ran out.
//!
//! How the code is to be read is in `CONTRIBUTING.md` (How to read the code).
#![tactic(auto)]

mod members;
mod nodes;
mod parts;

pub use members::{callee, field_at, place_of};
pub use nodes::push_node_line;
pub use parts::{Role, child_role, last_value, push_part_lines, push_role, shown_node};
