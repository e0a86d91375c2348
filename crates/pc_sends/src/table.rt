//! The table of who sends what.

use pc_base::List;

/// Methods of an entity may send a message: the entity's number, and the number of the method that is sent.
#[derive(Clone, Copy, Debug, PartialEq, Eq)]
pub struct Row {
    pub from: u32,
    pub target: u32,
}

/// Who may send what, over every run at once.
#[derive(Debug, Drop)]
pub struct Table {
    /// The pairs, each once, by the entity and then by the method.
    pub rows: List<Row>,
    /// The behaviours and constructors of the file's actors, other than the one with which the program begins, that no
    /// row has as its target, in ascending order.
    pub never: List<u32>,
    /// The methods that may begin or be sent, in ascending order.
    pub reached: List<u32>,
}
