//! A node and its surroundings.

use pc_ann::Note;
use pc_caps::Cap;
use pc_core::{Core, Node};
use pc_masks::Mask;

/// A node of a core, and what the rules depend on there.
#[derive(Drop)]
pub struct Site<'a> {
    pub core: &'a Core,
    /// The types of the core's slots.
    pub slots: &'a [(u32, Cap)],
    /// The notes of the node's children, in order.
    pub children: &'a [Note],
    pub node: &'a Node,
    /// The live slots before the node.
    pub live: Mask,
    /// The set fields before it.
    pub set: Mask,
}
