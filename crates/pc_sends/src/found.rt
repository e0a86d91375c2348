//! Numbers and calls that were found.
ghost use Rattle.std.specs.Prelude.{◌≡◌, ◌↔◌, [], IsTrue, IfOk, OnOk, slice_get};
ghost use Rattle.pc_base.specs.Lists.{Has};
ghost use Rattle.pc_sends.specs.Growth.{Grown};

use indexmap::IndexSet;
use std::alloc::{AllocError, Global};
use std::marker::Model;

/// Distinct numbers, in the order in which they were found.
#[derive(Drop)]
pub(crate) struct Found {
    numbers: IndexSet<u32>,
}

impl Model for Found {
    ghost use Rattle.std.specs.Prelude.{List as Sequence, ℕ};

    ghost Value = { Sequence ℕ };

    ghost view = { λ f. f.numbers.keys };
}

impl Found {
    pub(crate) fn new(alloc: Global) -> Found
        ensures { result ≡ [] }
    {
        Found {
            numbers: IndexSet::new(alloc),
        }
    }

    /// Appends the number, unless it is there already.
    pub(crate) fn add(&mut self, number: u32) -> Result<(), AllocError>
        ensures { OnOk result (Grown (λ t. number ≡ t) self.old self.new) }
    {
        self.numbers.insert_full(number)?;
        Ok(())
    }

    pub(crate) fn get(&self, at: usize) -> Option<u32>
        ensures { result ≡ slice_get self.now at }
    {
        self.numbers.get_index(at).copied()
    }

    /// The numbers as a vector.
    pub(crate) fn to_vec(&self, alloc: Global) -> Result<Vec<u32>, AllocError>
        ensures { IfOk result (λ numbers. numbers.items ≡ self.now) }
    {
        self.numbers.iter().copied().collect(alloc)
    }

    pub(crate) fn has(&self, number: u32) -> bool
        ensures { IsTrue result ↔ Has self.now number }
    {
        self.numbers.contains(&number)
    }
}
