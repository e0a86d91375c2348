//! The contents of methods: slots and nodes.

use crate::children::Children;
use pc_base::{SharedList, Span};
use pc_caps::Cap;
use pc_tree::Op;

/// The kind of a slot.
#[derive(Clone, Copy, Debug, PartialEq, Eq)]
pub enum SlotKind {
    /// `this`.
    This,
    /// A parameter.
    Param,
    /// A local that is assigned once.
    Let,
    /// A local that may be assigned again.
    Var,
}

/// A place for a value in a method's frame. Within a method, slots are numbered by their index, from 0 on.
#[derive(Clone, Copy, Debug, PartialEq, Eq)]
pub struct Slot {
    /// The method that it belongs to.
    pub method: u32,
    pub kind: SlotKind,
    /// The number of `recover` bodies around its definition.
    pub depth: u32,
    /// The entity and capability that are written for it, or none if they follow from its value.
    pub written: Option<(u32, Cap)>,
}

/// The kind of a node.
#[derive(Debug, Drop)]
pub enum NodeKind {
    /// A number.
    Number(u64),
    /// `true` or `false`.
    Truth(bool),
    /// A text, as its bytes.
    Text(SharedList<u8>),
    /// The value of a primitive, by the entity's number.
    Prim(u32),
    /// `this`.
    This,
    /// A local or parameter, by the index of its slot.
    Local(u32),
    /// `consume` of a local or parameter, by the index of its slot.
    Consume(u32),
    /// Reading a field, by the number of its name. The child is the origin.
    Field(u32),
    /// Writing a field, by the number of its name. The children are the value and the origin.
    SetField(u32),
    /// The definition of a local, by the index of its slot. The child is the value.
    Define(u32),
    /// The assignment to a local or parameter, by the index of its slot. The child is the value.
    Assign(u32),
    /// A class's constructor, by the method's number. The children are the arguments.
    New(u32),
    /// An actor's constructor, by the method's number. The children are the arguments.
    Spawn(u32),
    /// The call of a method, by the number of its name. The children are the arguments, and then the receiver.
    Call(u32),
    /// Arithmetic, comparison and `xor`. The children are the left and the right side, as for the next three.
    Binary(Op),
    /// `not`. The child is the operand.
    Not,
    And,
    Or,
    /// `is`, which is true iff both are the same object, or `isnt`.
    Same(bool),
    /// A sequence. The children are its items.
    Seq,
    /// `if`. The children are the condition, the `then` branch and the `else` branch.
    If,
    /// `while`. The children are the condition and the body.
    While,
    /// `recover`, with the capability if one is written. The child is the body.
    Recover(Option<Cap>),
    /// The body of a method. The child is its sequence.
    Body,
}

/// A node: a part of a method's body that is evaluated.
#[derive(Debug, Drop)]
pub struct Node {
    pub kind: NodeKind,
    /// The parts that are evaluated before it finishes, by their numbers, in the order of evaluation.
    pub children: Children,
    /// The number of `recover` bodies around it within its method.
    pub depth: u32,
    /// The method that it belongs to.
    pub method: u32,
    /// Its expression's whole text.
    pub span: Span,
}
