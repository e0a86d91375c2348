//! What an actor is doing.

use crate::slots::Slots;
use crate::stack::Stack;
use crate::tasks::Tasks;
use pc_heap::Value;

/// What is to be done next. Each number is the number of a node of the core.
#[derive(Clone, Copy, Debug, PartialEq, Eq)]
pub enum Task {
    /// Evaluate the node, and leave its value on the stack.
    Eval(u32),
    /// Read the field of this node from the origin on the stack.
    Get(u32),
    /// Write the field of this node: the origin and the value are on the stack.
    Put(u32),
    /// Store the value on the stack in the slot of this node.
    Store(u32),
    /// Make the object of this node, and begin its constructor.
    Make(u32),
    /// Make the actor of this node, and send it its constructor's message.
    Spawn(u32),
    /// Call or send the method of this node.
    Invoke(u32),
    /// Apply the operator of this node.
    Apply(u32),
    /// Look at the left side of this `and` or `or`.
    Test(u32),
    /// Look at the condition of this `if`.
    Branch(u32),
    /// Look at the condition of this `while`.
    Loop(u32),
    /// Drop the value on the stack.
    Discard,
    /// End the method.
    Return,
}

/// A method that an actor is in.
#[derive(Debug, Drop)]
pub struct Frame {
    /// The number of the method.
    pub method: u32,
    /// The contents of its slots, `this` first. A slot that holds nothing is empty.
    pub slots: Slots,
    /// The values that have not been used yet.
    pub stack: Stack<Value>,
    /// What is to be done, the first task on top.
    pub tasks: Tasks,
}
