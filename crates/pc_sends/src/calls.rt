//! Calls that have been looked at.
ghost use Rattle.std.specs.Prelude.{◌≡◌, ◌↔◌, ◌⊎◌, ℕ, [], IsTrue, OnOk};
ghost use Rattle.pc_base.specs.Lists.{Has};

use indexmap::IndexSet;
use std::alloc::{AllocError, Global};
use std::marker::Model;

/// Calls, each as the number of its name and the entity that its receiver is known to have.
#[derive(Drop)]
pub(crate) struct Calls {
    pairs: IndexSet<(u32, u32)>,
}

impl Model for Calls {
    ghost use Rattle.std.specs.Prelude.{List as Sequence, ℕ};

    ghost Value = { Sequence (ℕ × ℕ) };

    ghost view = { λ c. c.pairs.keys };
}

impl Calls {
    pub(crate) fn new(alloc: Global) -> Calls
        ensures { result ≡ [] }
    {
        Calls {
            pairs: IndexSet::new(alloc),
        }
    }

    pub(crate) fn add(&mut self, name: u32, known: u32) -> Result<(), AllocError>
        ensures { OnOk result ((call : ℕ × ℕ) → Has self.new call → Has self.old call ⊎ (call ≡ (name, known))) }
    {
        self.pairs.insert_full((name, known))?;
        Ok(())
    }

    pub(crate) fn has(&self, name: u32, known: u32) -> bool
        ensures { IsTrue result → Has self.now (name, known) }
    {
        self.pairs.contains(&(name, known))
    }
}
