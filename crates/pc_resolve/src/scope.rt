//! The visible locals and parameters.
ghost use Rattle.std.specs.Prelude.{◌≡◌, ◌∷◌, [], ◌++◌, IfOk, OnOk, OnErr, length, map, take, nat_lt, if◌then◌else◌};
ghost use Rattle.std.specs.Str.{bytes_eq};
ghost use Rattle.pc_body_spec.specs.Bodies as spec;
ghost use Rattle.pc_resolve.specs.Indexes.{with_first};
ghost use Rattle.pc_resolve.specs.Near.{near_count};

use crate::index::Index;
use crate::near::{NEAR, near};
use pc_base::{List, ShortBytes};
use pc_keyed::KeyedBy;
use std::alloc::{AllocError, Global};
use std::marker::Model;

/// A visible local or parameter, and the index of its slot.
#[derive(Drop)]
pub struct Visible {
    name: ShortBytes,
    slot: u32,
}

impl Model for Visible {
    ghost use Rattle.pc_body_spec.specs.Bodies.{Visible as Seen};

    ghost Value = { Seen };

    ghost view = { λ v. record { name = v.name; slot = v.slot } };
}

impl Visible {
    /// The local or parameter with this name, in the slot with this index.
    pub fn new(name: ShortBytes, slot: u32) -> Visible
        ensures { result ≡ record { name = name; slot = slot } }
    {
        Visible { name, slot }
    }
}

/// The slot of the visible local or parameter with this name. `None` iff there is none; the first in the scope counts.
/// The scope is searched from the start: in a body that gets nodes it has at most 64 slots.
pub fn slot_of(scope: &[Visible], name: &[u8]) -> Option<u32>
    ensures { result ≡ spec.slot_named scope.now name.now }
{
    for visible in scope {
        if visible.name.as_slice() == name {
            return Some(visible.slot);
        }
    }
    None
}

// A local or parameter in a scope, and how many names the index has before it.
#[derive(Drop)]
struct Entered {
    visible: Visible,
    names_before: usize,
}

/// The visible locals and parameters. The first ones are looked through, and the others looked up by hash of their
/// names.
#[derive(Drop)]
pub struct Scope {
    row: List<Entered>,
    slots: Index,
}

impl Model for Scope {
    ghost use Rattle.std.specs.Prelude.{◌≡◌, [], List as Sequence, map, drop};
    ghost use Rattle.std.specs.Str.{bytes_eq};
    ghost use Rattle.pc_body_spec.specs.Bodies.{Visible as Seen};
    ghost use Rattle.pc_resolve.specs.Indexes.{firsts, marks};
    ghost use Rattle.pc_resolve.specs.Near.{near_count};
    ghost use Rattle.pc_resolve.specs.Pairs.{visible_pair};

    ghost Value = { Sequence Seen };

    ghost view = { λ s. map (λ e. e.visible) s.row };

    ghost invariant = { λ s. (s.slots ≡ firsts bytes_eq (map visible_pair (map (λ e. e.visible) (drop near_count s.row)))) × (map (λ e. e.names_before) (drop near_count s.row) ≡ marks bytes_eq [] (map visible_pair (map (λ e. e.visible) (drop near_count s.row)))) };
}

impl Scope {
    /// Nothing is visible. Names are looked up by a hash with this key. Does not allocate.
    #[tactic(auto, unfolding(crate::specs::Near::near_count))]
    pub fn new(alloc: Global, key: KeyedBy) -> Scope
        ensures { result ≡ [] }
    {
        Scope {
            row: List::new(alloc),
            slots: Index::new(alloc, key),
        }
    }

    /// These are visible. Names are looked up by a hash with this key. `Err` if memory runs out.
    pub fn of(alloc: Global, key: KeyedBy, row: &[Visible]) -> Result<Scope, AllocError>
        ensures { IfOk result (λ scope. scope ≡ row.now) }
    {
        let mut scope = Scope::new(alloc, key);
        enter_all(alloc, &mut scope, row)?;
        Ok(scope)
    }

    /// The number of visible locals and parameters.
    pub fn len(&self) -> usize
        ensures { result ≡ length self.now }
    {
        self.row.len()
    }

    /// The slot of the visible local or parameter with this name. `None` iff there is none; the first counts.
    pub fn find(&self, name: &[u8]) -> Option<u32>
        ensures { result ≡ spec.slot_named self.now name.now }
    {
        match slot_among(near(self.row.as_slice()), name) {
            Some(slot) => Some(slot),
            None => self.slots.find(name),
        }
    }

    /// Makes the local with this name, in the slot with this index, visible. An `Err` changes nothing.
    pub fn push(&mut self, name: ShortBytes, slot: u32) -> Result<(), AllocError>
        ensures ok { OnOk result (self.new ≡ self.old ++ record { name = name; slot = slot } ∷ []) }
        ensures err { OnErr result (self.new ≡ self.old) }
    {
        let names_before = self.slots.len();
        note(&mut self.slots, self.row.len(), name.as_slice(), slot)?;
        let visible = Visible::new(name, slot);
        match self.row.push(Entered {
            visible,
            names_before,
        }) {
            Ok(()) => Ok(()),
            Err(refused) => {
                self.slots.truncate(names_before);
                Err(refused)
            }
        }
    }

    /// Keeps only the first `len` visible.
    pub fn truncate(&mut self, len: usize)
        ensures { self.new ≡ take len self.old }
    {
        if let Some(entered) = self.row.get(len) {
            self.slots.truncate(names_kept(len, entered));
            self.row.truncate(len);
        }
    }
}

// The slot of the local or parameter with this name. All of these are looked at; the first counts.
fn slot_among(row: &[Entered], name: &[u8]) -> Option<u32>
    ensures { result ≡ spec.slot_named (map (λ e. e.visible) row.now) name.now }
{
    for entered in row {
        if entered.visible.name.as_slice() == name {
            return Some(entered.visible.slot);
        }
    }
    None
}

// Adds the name at this place of a scope to the index, if it is looked up by hash. An `Err` changes nothing.
#[tactic(auto, unfolding(crate::specs::Near::near_count))]
fn note(slots: &mut Index, place: usize, name: &[u8], slot: u32) -> Result<(), AllocError>
    ensures ok { OnOk result (slots.new ≡ if nat_lt place near_count then slots.old else with_first bytes_eq slots.old (name.now, slot)) }
    ensures err { OnErr result (slots.new ≡ slots.old) }
{
    if place < NEAR {
        Ok(())
    } else {
        slots.add(name, slot)
    }
}

// How many names the index has before this place of a scope, at which this is entered.
#[tactic(auto, unfolding(crate::specs::Near::near_count))]
fn names_kept(place: usize, entered: &Entered) -> usize
    ensures { result ≡ if nat_lt place near_count then 0 else entered.now.names_before }
{
    if place < NEAR {
        0
    } else {
        entered.names_before
    }
}

// Makes these visible too.
fn enter_all(alloc: Global, scope: &mut Scope, row: &[Visible]) -> Result<(), AllocError>
    ensures { OnOk result (scope.new ≡ scope.old ++ row.now) }
{
    for visible in row {
        enter(alloc, scope, visible.name.as_slice(), visible.slot)?;
    }
    Ok(())
}

/// Makes the local with this name, in the slot with this index, visible.
pub fn enter(alloc: Global, scope: &mut Scope, name: &[u8], slot: u32) -> Result<(), AllocError>
    ensures { OnOk result (scope.new ≡ scope.old ++ record { name = name.now; slot = slot } ∷ []) }
{
    let name = ShortBytes::from_slice(alloc, name)?;
    scope.push(name, slot)
}
