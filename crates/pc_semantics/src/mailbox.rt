//! The messages that wait for an actor, in the order of sending.
ghost use Rattle.std.specs.Prelude.{◌≡◌, ◌++◌, ◌∷◌, [], length, drop, slice_get, option_copied, OnOk, OnErr, IfErr};

use crate::arguments::Arguments;
use std::alloc::{AllocFailed, Global};
use std::collections::VecDeque;
use std::marker::Model;

/// A message that was sent: a method and its arguments.
#[derive(Debug, Drop)]
pub struct Message {
    /// The number of the method.
    pub method: u32,
    pub arguments: Arguments,
}

/// The messages that wait for an actor, the oldest first.
#[derive(Debug, Drop)]
pub struct Mailbox {
    waiting: VecDeque<Message>,
}

impl Model for Mailbox {
    ghost use Rattle.std.specs.Prelude.{List as Sequence};
    ghost use Rattle.pc_semantics.specs.declared.mailbox.Message.{Message};

    ghost Value = { Sequence Message };

    ghost view = { λ m. m.waiting.items };
}

impl Mailbox {
    /// A mailbox without messages. It does not allocate.
    pub fn new(alloc: Global) -> Mailbox
        ensures { result ≡ [] }
    {
        Mailbox {
            waiting: VecDeque::new(alloc),
        }
    }

    /// How many messages wait.
    pub fn len(&self) -> usize
        ensures { result ≡ length self.now }
    {
        self.waiting.len()
    }

    /// The oldest message. `None` iff none waits.
    pub fn oldest(&self) -> Option<&Message>
        ensures { option_copied result ≡ slice_get self.now 0 }
    {
        self.waiting.front()
    }

    /// Appends a message. An `Err` hands it back and changes nothing.
    pub fn deliver(&mut self, message: Message) -> Result<(), AllocFailed<Message>>
        ensures ok { OnOk result (self.new ≡ self.old ++ message ∷ []) }
        ensures err { OnErr result (self.new ≡ self.old) }
        ensures back { IfErr result (λ failed. failed.value ≡ message) }
    {
        self.waiting.push_back(message)
    }

    /// Takes the oldest message. `None` iff none waits.
    pub fn take(&mut self) -> Option<Message>
        ensures message { result ≡ slice_get self.old 0 }
        ensures rest { self.new ≡ drop 1 self.old }
    {
        self.waiting.pop_front()
    }
}
