//! A line of a derivation text, and why bytes are not one.
use pc_ann::Note;
use pc_caps::Cap;

/// The content of a line of a derivation text.
#[derive(Clone, Copy, Debug, PartialEq, Eq)]
pub enum Line {
    /// The first line: the version, and the numbers of slots and of nodes that follow.
    Head {
        /// The number of the version, 1 or 2.
        version: u32,
        /// The number of slots.
        slots: u32,
        /// The number of nodes.
        nodes: u32,
    },
    /// The entity and the capability of a slot.
    Slot(u32, Cap),
    /// The note of a node, with the node's own masks after it in both versions.
    Node(Note),
}

/// Why bytes are not a derivation text.
#[derive(Clone, Copy, Debug, PartialEq, Eq)]
pub enum LineFault {
    /// The number, counted from 1, of the first malformed line. That may be a missing line, or the first line too many.
    BadLine(u32),
    /// The first line is well-formed, and a count in it exceeds its limit.
    TooMany,
}
