//! What a rule requires of a node, one condition at a time.

use pc_caps::{Cap, Form};
use pc_core::MethodKind;

/// One condition of a rule on a node. A child is given by its index among the node's children; for a call the arguments
/// come first, and then the receiver.
#[derive(Clone, Copy, Debug, PartialEq, Eq)]
pub enum Condition {
    /// The child has a type.
    Typed(usize),
    /// Its entity is below this one.
    Under(usize, u32),
    /// Its form fits this capability.
    Fits(usize, Cap),
    /// Its form is below this one.
    Below(usize, Form),
    /// It is of this entity.
    IsA(usize, u32),
    /// It is a U64, a Bool or a String.
    Comparable(usize),
    /// It is a U64 or a Bool.
    Printable(usize),
    /// Its form is readable.
    Readable(usize),
    /// The slot with this index is live.
    Live(u32),
    /// The slot is reachable: there is no `recover` between it and the node, or its capability is sendable.
    Reached(u32),
    /// The slot is a `var`.
    Variable(u32),
    /// The child's entity has a field with this name.
    HasField(usize, u32),
    /// The own entity has a field with this name.
    HasOwnField(u32),
    /// A field of this capability is seen in some form through the child.
    Seen(usize, Cap),
    /// The field is a `var`: its `fixed` is this.
    NotFixed(bool),
    /// A field of this capability can be written at all through the child.
    Writable(usize, Cap),
    /// The first child may be written into a field of this capability of the second.
    Enters(Cap),
    /// The own field with this index is set after the children.
    Set(u32),
    /// The own field with this index is a `var`, by its `fixed`, or is not set after the children.
    SetOnce(bool, u32),
    /// The receiver's entity has a method with this name.
    HasMethod(u32),
    /// A method of this kind is a function.
    Function(MethodKind),
    /// A method of this kind is a behaviour.
    Behaviour(MethodKind),
    /// There are as many arguments as parameters.
    Counted(usize, usize),
    /// The child's form does not fit this capability.
    Unfit(usize, Cap),
    /// Its form is `iso` or `trn`.
    Isolated(usize),
    /// A receiver of this capability can be lent: `ref` or `box`.
    Lent(Cap),
    /// The child has a sendable form, or goes to a parameter of this sendable capability.
    Sent(usize, Cap),
    /// The loop's body keeps live what is live before the loop.
    KeepsLive,
    /// The loop's body leaves the set fields as they are before the loop.
    KeepsSet,
    /// The lifted form of the body fits the written capability, if there is one.
    Lifted(Option<Cap>),
}
