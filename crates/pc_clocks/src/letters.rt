//! The clocks of the messages waiting for an actor.
ghost use Rattle.std.specs.Prelude.{◌≡◌, ◌++◌, ◌∷◌, [], length, drop, slice_get, OnOk};

use pc_base::List;
use std::alloc::{AllocError, Global};
use std::collections::VecDeque;
use std::marker::Model;

/// The clocks of the messages waiting for an actor, the oldest message's first.
#[derive(Drop)]
pub struct Letters {
    waiting: VecDeque<List<u64>>,
}

impl Model for Letters {
    ghost use Rattle.std.specs.Prelude.{ℕ, List as Sequence};

    ghost Value = { Sequence (Sequence ℕ) };

    ghost view = { λ l. l.waiting.items };
}

impl Letters {
    /// No messages. Does not allocate.
    pub fn new(alloc: Global) -> Letters
        ensures { result ≡ [] }
    {
        Letters {
            waiting: VecDeque::new(alloc),
        }
    }

    /// Appends the clock of one more message.
    pub fn put(&mut self, clock: List<u64>) -> Result<(), AllocError>
        ensures { OnOk result (self.new ≡ self.old ++ clock ∷ []) }
    {
        self.waiting.push_back(clock)?;
        Ok(())
    }

    /// Removes the oldest message's clock and returns it. `None` iff no message waits.
    pub fn take(&mut self) -> Option<List<u64>>
        ensures clock { result ≡ slice_get self.old 0 }
        ensures rest { self.new ≡ drop 1 self.old }
    {
        self.waiting.pop_front()
    }
}
