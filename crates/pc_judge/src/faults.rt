//! The faults of annotations.

use pc_sub::DeclFault;

/// The first fault of an annotation of a core.
#[derive(Clone, Copy, Debug, PartialEq, Eq)]
pub enum JudgeFault {
    /// The declarations of the core do not fit: this one is the first that fails.
    Decl(DeclFault),
    /// The annotation does not have one entry for each slot and one note for each node.
    Shape,
    /// The type of the slot with this number is not the one that is written for it.
    Slot(u32),
    /// The node with this number does not satisfy the rule of its note.
    Node(u32),
    /// After the body of this method, a constructor, some field is not set.
    Unset(u32),
}
