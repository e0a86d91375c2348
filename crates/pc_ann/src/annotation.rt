//! What a derivation states about a core.

use pc_base::List;
use pc_caps::{Cap, Form};
use pc_masks::Mask;

/// The typing rules. Each applies to one kind of node, or to a few. Rules that the paper of 2015 does not have are this
/// project's profile.
#[derive(Clone, Copy, Debug, PartialEq, Eq)]
pub enum Rule {
    /// A number.
    Number,
    /// `true` or `false`.
    Truth,
    /// A text.
    Text,
    /// The value of a primitive.
    Prim,
    /// `this`.
    This,
    /// A local or parameter.
    Local,
    /// `consume` of a local or parameter.
    Consume,
    /// Reading a field.
    Get,
    /// Reading a field of `this` in a constructor, before all fields are set.
    GetOwn,
    /// Writing a field.
    Put,
    /// Writing a field of `this` in a constructor, before all fields are set.
    PutOwn,
    /// The definition of a local.
    Define,
    /// The assignment to a local or parameter.
    Assign,
    /// Constructing an object of a class.
    New,
    /// Constructing an actor.
    Spawn,
    /// Calling a method.
    Call,
    /// Calling a method on an isolated receiver that does not fit the method's receiver as it is (receiver recovery, in
    /// the Pony tutorial).
    CallRecover,
    /// Sending a message to an actor.
    Send,
    /// The text of a number or of a truth value.
    Builtin,
    /// Arithmetic on numbers.
    Arith,
    /// Less and greater on numbers.
    Compare,
    /// Equality of numbers, truth values or texts.
    Equal,
    /// Concatenating two texts.
    Join,
    /// `xor` and `not`.
    Logic,
    /// `and` and `or`, whose right side is evaluated only if needed.
    Lazy,
    /// `is` and `isnt`.
    Identity,
    /// A sequence.
    Seq,
    /// `if`.
    If,
    /// `while`.
    While,
    /// `recover`.
    Recover,
    /// The body of a method.
    Body,
}

/// What a derivation states about a node. The live masks contain the slots that hold a value, the set masks the fields
/// of `this` that have one; bit i is the slot or field with index i.
#[derive(Clone, Copy, Debug, PartialEq, Eq)]
pub struct Note {
    /// The rule that the node satisfies.
    pub rule: Rule,
    /// The entity and the form of the node's value, or none if the value can't be used.
    pub ty: Option<(u32, Form)>,
    /// The live slots before the node is evaluated.
    pub live_before: Mask,
    /// The set fields before the node is evaluated.
    pub set_before: Mask,
    /// The live slots after it.
    pub live_after: Mask,
    /// The set fields after it.
    pub set_after: Mask,
}

/// An annotation of a core: an entity and a capability for each slot, and a note for each node, in the core's order.
#[derive(Debug, Drop, PartialEq)]
pub struct Ann {
    pub slots: List<(u32, Cap)>,
    pub notes: List<Note>,
}
