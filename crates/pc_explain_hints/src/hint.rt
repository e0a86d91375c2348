//! What to do about a condition that does not hold.

use pc_caps::{Cap, Form};

/// What to do about a condition that does not hold. A child is named by its index.
#[derive(Clone, Copy, Debug, PartialEq, Eq)]
pub enum Hint {
    /// Let the child's entity declare that it is this trait.
    SayIs(usize, u32),
    /// Consume the child, which is a local with this capability.
    Consume(usize, Cap),
    /// Consume the receiver, which is a local with this capability.
    ConsumeReceiver(usize, Cap),
    /// Assign to the field that the child reads: the old value has this form.
    OldValue(usize, Form),
    /// Declare the node's own function with this capability.
    DeclareFunction(Cap),
    /// Make the child, a new object, in a `recover`, or declare the constructor `new iso`.
    RecoverNew(usize),
    /// Make the object in a `recover`.
    RecoverObject,
    /// A value of this form can go to other places.
    GoesTo(Form),
    /// Declare the called method as box.
    DeclareBox,
    /// Declare the result with the type of the child.
    DeclareResult(usize),
    /// Declare the result of the function with this name, which the child calls, with `^`: it then has this form.
    DeclareHat(usize, u32, Form),
    /// `=` is not a comparison.
    Compare,
    /// A number is no condition: compare it with another.
    CompareNumber,
    /// `string()` gives a String.
    ToString,
    /// Objects are compared by `is`.
    CompareObjects,
    /// Use the slot before it is consumed.
    UseBefore(u32),
    /// Make what the `recover` needs inside it.
    MakeInside,
    /// Let the `recover` return the value.
    GiveOut,
    /// Copy the parameter to a `var`.
    CopyFirst,
    /// Declare the slot as a `var`.
    DeclareSlot(u32),
    /// Declare the field that is written as a `var`.
    DeclareField,
    /// Declare the field with this index of the node's own entity as a `var`.
    DeclareOwnField(u32),
    /// The field's name is the name of a method.
    CallMethod(u32),
    /// The method's name is the name of a field.
    CallValue(u32),
    /// In a `recover`, `this` is a tag.
    TagInRecover,
    /// Until all fields are set, `this` is a tag.
    TagUntilSet,
    /// From outside, an actor is only sent messages.
    SendMessage,
    /// Set the field with this index of the node's own entity first.
    SetBefore(u32),
    /// Call the constructor by its entity.
    CallConstructor,
    /// Make the argument in a `recover`, or make the parameter sendable.
    SendArgument,
    /// Consume the slot after the loop.
    ConsumeAfter(u32),
    /// Set the field before the loop.
    SetBeforeLoop,
    /// Write `recover val`, or let the body end with a ref.
    RecoverValue,
    /// Consume the slot at the end of the `recover`.
    ConsumeEnd(u32),
}
