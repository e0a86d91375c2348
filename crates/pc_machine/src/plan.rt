//! What a call or the end of a method is about to do, with the memory for it already allocated.

use pc_heap::Value;
use pc_semantics::{Frame, Lack, Message};

/// How the frames of an actor change. If the running frame goes on, its first task and `count` values of its stack are
/// removed.
#[derive(Drop)]
pub enum Change {
    /// It goes on with a value.
    Gives { count: usize, value: Value },
    /// It goes on below the frame of a method that begins.
    Enters { count: usize, frame: Frame },
    /// It ends, and leaves a value to the frame below, or none.
    Leaves(Option<Value>),
}

/// What a task is about to do. Counts are as in a `Change`.
#[derive(Drop)]
pub enum Plan {
    /// Nothing, since it lacks something.
    Lacks(Lack),
    /// Only the frames of the actor change.
    Changes(Change),
    /// An object of an entity is made, with this number of fields, and its constructor's frame begins. The object
    /// becomes `this`.
    Makes {
        count: usize,
        entity: u32,
        fields: u32,
        frame: Frame,
    },
    /// An actor is made with its object, of an entity with this number of fields, and its first message.
    Spawns {
        count: usize,
        entity: u32,
        fields: u32,
        message: Message,
    },
    /// A message goes to an actor.
    Sends {
        count: usize,
        receiver: u32,
        message: Message,
    },
}
