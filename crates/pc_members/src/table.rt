//! Names in the order of their first appearance, with their numbers.
ghost use Rattle.std.specs.Prelude.{◌≡◌, ◌<◌, ◌^◌, [], length, true, IsTrue, OnOk, OnErr, slice_get};
ghost use Rattle.std.specs.Option.{option_copied};
ghost use Rattle.pc_members.specs.MemberLists.{with_name, is_among};
ghost use Rattle.pc_members.specs.Parts.{find_name};

use indexmap::IndexSet;
use pc_keyed::KeyedBy;
use std::alloc::{AllocError, Global};
use std::marker::Model;

/// How many names a table may have. No memory could hold more.
const MOST_NAMES: usize = 4_294_967_295;

/// Different names, in the order of their first appearance. The number of a name is its place. The hash key does not
/// affect what a table contains and finds.
#[derive(Drop)]
pub struct NameTable {
    alloc: Global,
    names: IndexSet<Vec<u8>, KeyedBy>,
}

impl Model for NameTable {
    ghost use Rattle.std.specs.Prelude.{List as Sequence, ℕ, map, ◌<◌, ◌^◌, length};

    ghost Value = { Sequence (Sequence ℕ) };

    ghost view = { λ t. map (λ v. v.items) t.names.keys };

    ghost invariant = { λ t. length t.names.keys < 2 ^ 32 };
}

impl NameTable {
    /// A table without names, which looks names up by a hash with this key. Does not allocate.
    pub fn new(alloc: Global, key: KeyedBy) -> NameTable
        ensures { result ≡ [] }
    {
        NameTable {
            alloc,
            names: IndexSet::with_hasher(alloc, key),
        }
    }

    /// A table without names, with the key of this one. Does not allocate.
    pub fn new_like(&self, alloc: Global) -> NameTable
        ensures { result ≡ [] }
    {
        NameTable::new(alloc, self.key())
    }

    /// The key of the hash by which names are looked up. No contract depends on it.
    pub fn key(&self) -> KeyedBy {
        *self.names.hasher()
    }

    /// The number of names.
    pub fn len(&self) -> u32
        ensures { result ≡ length self.now }
    {
        self.names.len() as u32
    }

    /// The number of the name. `None` iff it is not there. Does not allocate.
    pub fn find(&self, name: &[u8]) -> Option<u32>
        ensures { result ≡ find_name self.now name.now }
    {
        self.names.get_index_of(name).map(|number| number as u32)
    }

    /// The name with this number. `None` iff there is none. Does not allocate.
    #[tactic(auto, using(crate::proofs::Views::get_shown))]
    pub fn get(&self, number: u32) -> Option<&[u8]>
        ensures { option_copied result ≡ slice_get self.now number }
    {
        match self.names.get_index(number as usize) {
            Some(name) => Some(name.as_slice()),
            None => None,
        }
    }

    /// Whether this name has this number. Does not allocate.
    #[tactic(auto, using(crate::proofs::Differences::placed_among))]
    pub(crate) fn is_at(&self, number: u32, name: &[u8]) -> bool
        ensures { IsTrue result → is_among name.now self.now ≡ true }
    {
        match self.get(number) {
            Some(found) => found == name,
            None => false,
        }
    }

    /// Whether the name is there. Does not allocate.
    pub fn has(&self, name: &[u8]) -> bool
        ensures { result ≡ is_among name.now self.now }
    {
        self.names.contains(name)
    }

    /// Appends the name, unless it is there already; then nothing is allocated. An `Err` changes nothing.
    pub fn add(&mut self, name: &[u8]) -> Result<(), AllocError>
        ensures ok { OnOk result (self.new ≡ with_name self.old name.now) }
        ensures err { OnErr result (self.new ≡ self.old) }
    {
        if self.has(name) {
            return Ok(());
        }
        if self.names.len() >= MOST_NAMES {
            return Err(AllocError);
        }
        let owned = name.to_vec(self.alloc)?;
        self.names.insert_full(owned)?;
        Ok(())
    }
}
