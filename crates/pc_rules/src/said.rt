//! The conclusion of a rule.

use pc_caps::Form;
use pc_masks::Mask;

/// The conclusion of a rule for a node: its type and the masks after it.
#[derive(Clone, Copy, Debug, PartialEq, Eq)]
pub struct Said {
    /// The entity and the form of the node's value, or none if the value can't be used.
    pub ty: Option<(u32, Form)>,
    /// The live slots after the node.
    pub live: Mask,
    /// The set fields after it.
    pub set: Mask,
}
