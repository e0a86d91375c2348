//! Names with their values, looked up by hash.
ghost use Rattle.std.specs.Prelude.{◌≡◌, [], OnOk, OnErr, length, take};
ghost use Rattle.std.specs.Map.{lookup};
ghost use Rattle.std.specs.Str.{bytes_eq};
ghost use Rattle.pc_resolve.specs.Indexes.{with_first};

use indexmap::IndexMap;
use pc_keyed::KeyedBy;
use std::alloc::{AllocError, Global};
use std::marker::Model;

/// Different names, each with a value, in the order in which they were added.
#[derive(Drop)]
pub(crate) struct Index {
    alloc: Global,
    values: IndexMap<Vec<u8>, u32, KeyedBy>,
}

impl Model for Index {
    ghost use Rattle.std.specs.Prelude.{List as Sequence, ℕ, map};

    ghost Value = { Sequence (Sequence ℕ × ℕ) };

    ghost view = { λ i. map (λ e. (e.0.items, e.1)) i.values.entries };
}

impl Index {
    /// An index without names, which looks names up by a hash with this key. Does not allocate.
    pub(crate) fn new(alloc: Global, key: KeyedBy) -> Index
        ensures { result ≡ [] }
    {
        Index {
            alloc,
            values: IndexMap::with_hasher(alloc, key),
        }
    }

    /// The number of names.
    #[tactic(auto, using(crate::proofs::Indexes::shown_length))]
    pub(crate) fn len(&self) -> usize
        ensures { result ≡ length self.now }
    {
        self.values.len()
    }

    /// The value of the name. `None` iff the name is not there.
    #[tactic(auto, using(crate::proofs::Indexes::lookup_shown))]
    pub(crate) fn find(&self, name: &[u8]) -> Option<u32>
        ensures { result ≡ lookup (bytes_eq name.now) self.now }
    {
        self.values.get(name).copied()
    }

    /// Appends the name with this value, unless it is there already; then nothing is allocated. An `Err` changes
    /// nothing.
    pub(crate) fn add(&mut self, name: &[u8], value: u32) -> Result<(), AllocError>
        ensures ok { OnOk result (self.new ≡ with_first bytes_eq self.old (name.now, value)) }
        ensures err { OnErr result (self.new ≡ self.old) }
    {
        if self.find(name).is_some() {
            return Ok(());
        }
        let owned = name.to_vec(self.alloc)?;
        self.values.insert(owned, value)?;
        Ok(())
    }

    /// Keeps the first `len` names.
    #[tactic(auto, using(crate::proofs::Indexes::take_shown))]
    pub(crate) fn truncate(&mut self, len: usize)
        ensures { self.new ≡ take len self.old }
    {
        self.values.truncate(len);
    }
}
