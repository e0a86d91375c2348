//! The numbers of parts that have been emitted.
ghost use Rattle.std.specs.Prelude.{◌≡◌, ◌++◌, ◌∷◌, [], length, ◌↔◌, IsTrue, OnOk, OnErr};

use smallvec::SmallVec;
use std::alloc::{AllocError, Global};
use std::marker::Model;

/// The numbers of parts whose nodes have been emitted, in order: they will be the children of one node. The first four
/// are in the value itself, so that most rows need no memory of their own. Contracts see the sequence and nothing else.
#[derive(Drop)]
pub(crate) struct Tops {
    row: SmallVec<u32, 4>,
}

impl Model for Tops {
    ghost use Rattle.std.specs.Prelude.{List as Sequence, ℕ};

    ghost Value = { Sequence ℕ };

    ghost view = { λ tops. tops.row.items };
}

impl Tops {
    /// No numbers. It does not allocate.
    pub(crate) fn new(alloc: Global) -> Tops
        ensures { result ≡ [] }
    {
        Tops {
            row: SmallVec::new(alloc),
        }
    }

    /// Appends a number. An `Err` changes nothing.
    pub(crate) fn push(&mut self, top: u32) -> Result<(), AllocError>
        ensures ok { OnOk result (self.new ≡ self.old ++ top ∷ []) }
        ensures err { OnErr result (self.new ≡ self.old) }
    {
        self.row.push(top)?;
        Ok(())
    }

    /// Whether there are none.
    pub(crate) fn is_empty(&self) -> bool
        ensures { IsTrue result ↔ (length self.now ≡ 0) }
    {
        self.row.len() == 0
    }

    /// The numbers, in order.
    pub(crate) fn as_slice(&self) -> &[u32]
        ensures { result.now ≡ self.now }
    {
        self.row.as_slice()
    }
}
