//! How a step ends.

/// What a step lacks. If it lacks several things, the first in this order is named.
#[derive(Clone, Copy, Debug, PartialEq, Eq)]
pub enum Lack {
    /// A value on the stack, or one of the kind that is needed.
    Value,
    /// The value of a slot.
    Slot,
    /// The object that is read or written, or the actor that is sent to.
    Object,
    /// The field, or its value.
    Field,
    /// The method, or as many parameters as there are arguments.
    Method,
}

/// How a step of an actor ends.
#[derive(Clone, Copy, Debug, PartialEq, Eq)]
pub enum Outcome {
    /// It did its first task, or took its first message.
    Moved,
    /// There is no such actor, or it has nothing to do.
    Skipped,
    /// It lacks something that its task needs.
    Lacks(Lack),
    /// It would make a text that is longer than a text may be.
    TooLong,
}
