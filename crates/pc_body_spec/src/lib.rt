//! Elaboration as definitions: the nodes, slots and faults of the body of a method, and their laws.
//!
//! Proved, about the nodes, slots and faults of a method's body: nodes are in post-order, each with the children and
//! depth that its kind requires; what they refer to exists if there is no fault; each local is defined once, before its
//! uses; the first fault has the smallest start. Small bodies elaborate as written out by hand.
//!
//! How the code is to be read is in `CONTRIBUTING.md` (How to read the code).
#![tactic(auto)]

mod laws;

pub use laws::{
    bodies_stand, children_are_shaped, locals_are_defined, locals_are_defined_as_often,
    locals_are_defined_once, locals_are_visible, methods_stand, names_are_there,
    names_stand_in_order, nodes_have_children, nodes_stand_in_post_order, small_bodies_stand,
    written_types_are_there,
};
