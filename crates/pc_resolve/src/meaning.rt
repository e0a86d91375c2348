//! What a name can mean.

use crate::constructors::Constructors;

/// The meaning of a bare name.
#[derive(Clone, Copy, Debug, PartialEq, Eq)]
pub enum Meaning {
    /// A visible local or parameter, by the index of its slot.
    Local(u32),
    /// A field of the entity.
    Field,
    /// A method of the entity.
    Method,
    /// Nothing that is visible or that the entity has.
    Nothing,
}

/// The meaning of a type name as an expression.
#[derive(Drop)]
pub enum TypeMeaning<'a> {
    /// The value of a primitive, by the entity's number.
    Primitive(u32),
    /// A class or an actor, which has these constructors.
    Created {
        actor: bool,
        constructors: &'a Constructors,
    },
    /// Nothing that has a value.
    NoValue,
}
