//! The typing rules as they are computed: what each says of a node, and that this is what the records of `pc_valid` say.
//!
//! Proved: `rule_holds` decides, for every core, whether a node meets its rule, and `holds` does so from the types of the
//! slots and the notes of the node's children alone. What is computed is what the records say: of one rule
//! (`rules_say_what_is_meant`), of a node (`meets_the_same_rules`), of an annotation (`same_are_valid`), and of what shows
//! that none is valid (`same_have_no_rule`, `same_are_unset`). A rule and the masks before a node determine what is said
//! of it (`rules_determine`); what consuming, defining and the end of a sequence do to the masks; at most one annotation of
//! a core is valid (`one_annotation_is_valid`). A small program meets its rules, and wrong notes of it meet none.
//!
//! How the code is to be read is in `CONTRIBUTING.md` (How to read the code).
#![tactic(auto)]

mod calls;
mod children;
mod control;
mod examples;
mod fields;
mod laws;
mod operators;
mod parts;
mod rules;
mod said;
mod values;

pub use control::{start_live, start_set};
pub use examples::{each_node_meets_its_rule, wrong_notes_meet_no_rule};
pub use laws::{
    consume_takes_out, define_puts_in, meets_the_same_rules, one_annotation_is_valid,
    rules_determine, rules_say_what_is_meant, same_are_unset, same_are_valid, same_have_no_rule,
    seq_takes_out,
};
pub use parts::{constructs, full};
pub use rules::{holds, rule_holds, says};
pub use said::Said;
