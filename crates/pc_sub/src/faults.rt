//! The faults of declarations.

/// A declaration that fails.
#[derive(Clone, Copy, Debug, PartialEq, Eq)]
pub enum DeclFault {
    /// The parameter with this index can't be sent, although it is one of a behaviour, of an actor's constructor, or of
    /// a class's constructor that is `iso`, `trn` or `val` (the Pony tutorial).
    NotSendable { method: u32, parameter: u32 },
    /// The entity has no method with the name and kind of this one, which is in a trait or an interface of its `is`
    /// list.
    MissingMethod { entity: u32, method: u32 },
    /// The entity's method does not fit the method with its name in a trait or an interface of the entity's `is` list.
    Mismatch { entity: u32, method: u32 },
}
