//! Why no rule applies to a node: what each rule requires of it, one condition after the other, and the first that does
//! not hold.
//!
//! Proved: `reasons` returns, of the rules for a node, in order, each that is considered and fails, with its first
//! condition that does not hold. With the masks that reach a node, the conditions are the rule and its record, for all
//! 31 rules and in both directions (`conditions_are_the_rule`, `conditions_are_the_record`). If no rule applies, each
//! that is considered fails by one condition (`each_rule_fails`), one is considered (`there_is_a_reason`), and the
//! node, the masks and the reasons are the same whichever notes lead to them (`one_explanation`).
//!
//! How the code is to be read is in `CONTRIBUTING.md` (How to read the code).
#![tactic(auto)]

mod asking;
mod children;
mod chosen;
mod condition;
mod fields;
mod finding;
mod holding;
mod laws;
mod reason;
mod site;
mod slots;

pub use condition::Condition;
pub use finding::reasons;
pub use laws::{
    conditions_are_the_record, conditions_are_the_rule, each_rule_fails, one_explanation,
    there_is_a_reason,
};
pub use reason::Reason;
pub use site::Site;
