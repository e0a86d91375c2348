//! Why a rule does not apply to a node.

use crate::condition::Condition;
use pc_ann::Rule;

/// A rule that does not apply to a node, and the first of its conditions that does not hold.
#[derive(Clone, Copy, Debug, PartialEq, Eq)]
pub struct Reason {
    pub rule: Rule,
    pub condition: Condition,
}
