//! Actors.

use crate::frames::Frame;
use crate::mailbox::Mailbox;
use crate::stack::Stack;

/// An actor: the messages that wait for it, and what it is doing.
#[derive(Debug, Drop)]
pub struct Actor {
    /// The messages that it was sent and has not taken, the oldest first.
    pub mailbox: Mailbox,
    /// The methods that it is in, the innermost on top. The actor is idle if there are none.
    pub frames: Stack<Frame>,
}
