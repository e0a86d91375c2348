//! The arguments of a message.
ghost use Rattle.std.specs.Prelude.{◌≡◌, ◌++◌, ◌∷◌, [], length, OnOk, OnErr, IfErr};

use pc_heap::Value;
use smallvec::SmallVec;
use std::alloc::{AllocFailed, Global};
use std::marker::Model;

/// The arguments of a message, in order. The first four are in the message itself.
#[derive(Debug, Drop)]
pub struct Arguments {
    items: SmallVec<Value, 4>,
}

impl Model for Arguments {
    ghost use Rattle.std.specs.Prelude.{List as Sequence};
    ghost use Rattle.pc_heap.specs.declared.value.Value.{Value as Datum};

    ghost Value = { Sequence Datum };

    ghost view = { λ a. a.items.items };
}

impl Arguments {
    /// No arguments. It does not allocate.
    pub fn new(alloc: Global) -> Arguments
        ensures { result ≡ [] }
    {
        Arguments {
            items: SmallVec::new(alloc),
        }
    }

    /// Appends an argument. An `Err` hands it back and changes nothing.
    pub fn push(&mut self, argument: Value) -> Result<(), AllocFailed<Value>>
        ensures ok { OnOk result (self.new ≡ self.old ++ argument ∷ []) }
        ensures err { OnErr result (self.new ≡ self.old) }
        ensures back { IfErr result (λ failed. failed.value ≡ argument) }
    {
        self.items.push(argument)
    }

    /// The arguments, in order.
    pub fn as_slice(&self) -> &[Value]
        ensures { result.now ≡ self.now }
    {
        self.items.as_slice()
    }

    /// How many arguments there are.
    pub fn len(&self) -> usize
        ensures { result ≡ length self.now }
    {
        self.items.len()
    }
}
