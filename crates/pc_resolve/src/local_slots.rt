//! The slots of locals, looked up by the places of their names.
ghost use Rattle.std.specs.Prelude.{◌≡◌, [], IfOk, OnOk, map, nat_eq};
ghost use Rattle.pc_body_spec.specs.Bodies as spec;
ghost use Rattle.pc_resolve.specs.Indexes.{firsts, with_first, with_firsts};
ghost use Rattle.pc_resolve.specs.Pairs.{placed_pair};

use indexmap::IndexMap;
use pc_base::List;
use pc_keyed::KeyedBy;
use std::alloc::{AllocError, Global};
use std::marker::Model;

/// The slot of a local, and the place of its name in its definition.
#[derive(Drop)]
pub struct Placed {
    start: u32,
    slot: u32,
}

impl Model for Placed {
    ghost use Rattle.pc_body_spec.specs.Bodies.{PlacedLocal as Seen};

    ghost Value = { Seen };

    ghost view = { λ p. record { start = p.start; slot = p.slot } };
}

impl Placed {
    /// The slot with this index, of the local whose name begins at this byte.
    pub fn new(start: u32, slot: u32) -> Placed
        ensures { result ≡ record { start = start; slot = slot } }
    {
        Placed { start, slot }
    }
}

/// The slots of locals in order, looked up by hash of the places of the locals' names.
#[derive(Drop)]
pub struct LocalSlots {
    row: List<Placed>,
    by_start: IndexMap<u32, u32, KeyedBy>,
}

impl Model for LocalSlots {
    ghost use Rattle.std.specs.Prelude.{◌≡◌, List as Sequence, map, nat_eq};
    ghost use Rattle.pc_body_spec.specs.Bodies.{PlacedLocal as Seen};
    ghost use Rattle.pc_resolve.specs.Indexes.{firsts};
    ghost use Rattle.pc_resolve.specs.Pairs.{placed_pair};

    ghost Value = { Sequence Seen };

    ghost view = { λ s. s.row };

    ghost invariant = { λ s. s.by_start.entries ≡ firsts nat_eq (map placed_pair s.row) };
}

impl LocalSlots {
    /// No slots. Does not allocate.
    pub fn new(alloc: Global) -> LocalSlots
        ensures { result ≡ [] }
    {
        LocalSlots {
            row: List::new(alloc),
            by_start: IndexMap::with_hasher(alloc, KeyedBy::nothing()),
        }
    }

    /// These slots. `Err` if memory runs out.
    pub fn of(alloc: Global, row: List<Placed>) -> Result<LocalSlots, AllocError>
        ensures { IfOk result (λ slots. slots ≡ row) }
    {
        let by_start = index_starts(alloc, row.as_slice())?;
        Ok(LocalSlots { row, by_start })
    }

    /// The slot of the local whose name begins at this byte, or 0 if there is none; the first counts.
    #[tactic(auto, using(crate::proofs::Found::slot_found))]
    pub(crate) fn at(&self, start: u32) -> u32
        ensures { result ≡ spec.slot_at self.now start }
    {
        match self.by_start.get(&start) {
            Some(slot) => *slot,
            None => 0,
        }
    }
}

// The slot for each place; the first counts.
fn index_starts(alloc: Global, row: &[Placed]) -> Result<IndexMap<u32, u32, KeyedBy>, AllocError>
    ensures { IfOk result (λ m. m.entries ≡ firsts nat_eq (map placed_pair row.now)) }
{
    let mut by_start = IndexMap::with_hasher(alloc, key_of(row));
    note_all(&mut by_start, row)?;
    Ok(by_start)
}

// Records the slots of all places that have none so far.
fn note_all(by_start: &mut IndexMap<u32, u32, KeyedBy>, row: &[Placed]) -> Result<(), AllocError>
    ensures { OnOk result (by_start.new.entries ≡ with_firsts nat_eq by_start.old.entries (map placed_pair row.now)) }
{
    for placed in row {
        note(by_start, placed.start, placed.slot)?;
    }
    Ok(())
}

// Records the slot of a place, unless the place has one.
fn note(by_start: &mut IndexMap<u32, u32, KeyedBy>, start: u32, slot: u32) -> Result<(), AllocError>
    ensures { OnOk result (by_start.new.entries ≡ with_first nat_eq by_start.old.entries (start, slot)) }
{
    if by_start.contains_key(&start) {
        return Ok(());
    }
    by_start.insert(start, slot)?;
    Ok(())
}

// The key made of these places.
fn key_of(row: &[Placed]) -> KeyedBy {
    let mut key = KeyedBy::nothing();
    for placed in row {
        key.add_number(placed.start);
    }
    key
}
