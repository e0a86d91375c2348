//! What an actor is about to touch.

use pc_heap::Address;

/// A field of an object that an actor's next task reads or writes.
#[derive(Clone, Copy, Debug, PartialEq, Eq)]
pub struct Access {
    /// The object's address.
    pub address: Address,
    /// The index of the field.
    pub field: u32,
    /// Whether the field is written; otherwise it is read.
    pub write: bool,
}
