//! Sets of entities.
ghost use Rattle.std.specs.Prelude.{◌≡◌, ◌⊎◌, ◌↔◌, ℕ, ◌+◌, ◌/◌, ◌<◌, IfOk, IsTrue, length, replicate};
ghost use Rattle.pc_core.specs.EntitySets as spec;

use pc_base::List;
use pc_masks::Mask;
use std::alloc::{AllocError, Global};
use std::marker::Model;

// For how many entities a mask has a bit.
const MASK_BITS: u32 = 64;

/// A set of entities, with a bit for each: entity e is bit e % 64 of mask e / 64.
#[derive(Debug, Drop)]
pub struct EntitySet {
    masks: List<Mask>,
}

impl Model for EntitySet {
    ghost use Rattle.std.specs.Prelude.{List as Sequence};
    ghost use Rattle.pc_masks.specs.declared.mask.Mask.{Mask};

    ghost Value = { Sequence Mask };

    ghost view = { λ set. set.masks };
}

impl EntitySet {
    /// The empty set, with room for the entities below this number.
    pub fn none(alloc: Global, count: usize) -> Result<EntitySet, AllocError>
        ensures room { IfOk result (spec.HasRoom count) }
        ensures none { IfOk result (λ set. (e : ℕ) → ¬ (spec.Holds set e)) }
    {
        Ok(EntitySet {
            masks: repeat(alloc, Mask::first(0), count)?,
        })
    }

    /// The set of all entities below this number, and perhaps of further ones.
    pub fn all(alloc: Global, count: usize) -> Result<EntitySet, AllocError>
        ensures { IfOk result (λ set. (e : ℕ) → e < count → spec.Holds set e) }
    {
        Ok(EntitySet {
            masks: repeat(alloc, Mask::first(MASK_BITS), count)?,
        })
    }

    /// Whether the entity is in the set.
    pub fn has(&self, entity: u32) -> bool
        ensures { IsTrue result ↔ spec.Holds self.now entity }
    {
        mask_at(&self.masks, (entity / MASK_BITS) as usize).has(entity % MASK_BITS)
    }

    /// Adds an entity to the set.
    pub fn add(&mut self, entity: u32)
        requires { spec.HasRoom (entity + 1) self.old }
        ensures room { length self.new ≡ length self.old }
        ensures has { (e : ℕ) → (spec.Holds self.new e) ↔ ((e ≡ entity) ⊎ spec.Holds self.old e) }
    {
        let place = (entity / MASK_BITS) as usize;
        let mask = mask_at(&self.masks, place).with(entity % MASK_BITS);
        self.masks.replace(place, mask);
    }

    /// The set of the entities that are in both sets.
    pub fn meet(&self, alloc: Global, other: &EntitySet) -> Result<EntitySet, AllocError>
        ensures { IfOk result (λ set. (e : ℕ) → (spec.Holds set e) ↔ (spec.Holds self.now e × spec.Holds other.now e)) }
    {
        let masks = meet_masks(alloc, &self.masks, &other.masks)?;
        Ok(EntitySet { masks })
    }
}

// The mask at this place, or past the last one the empty mask.
fn mask_at(masks: &List<Mask>, place: usize) -> Mask
    ensures { result ≡ spec.mask_at masks.now place }
{
    match masks.get(place) {
        None => Mask::first(0),
        Some(mask) => *mask,
    }
}

// The same mask, repeated as often as this number of entities requires.
fn repeat(alloc: Global, mask: Mask, count: usize) -> Result<List<Mask>, AllocError>
    ensures { IfOk result (λ masks. masks ≡ replicate (count / spec.mask_bits + 1) mask) }
{
    let mut masks = List::new(alloc);
    for _ in 0..count / MASK_BITS as usize + 1 {
        masks.push(mask)?;
    }
    Ok(masks)
}

// The masks of both, place by place.
fn meet_masks(
    alloc: Global,
    first: &List<Mask>,
    second: &List<Mask>,
) -> Result<List<Mask>, AllocError>
    ensures { IfOk result (spec.AreMet first.now second.now) }
{
    let mut masks = List::new(alloc);
    for place in 0..first.len() {
        masks.push(mask_at(first, place).meet(mask_at(second, place)))?;
    }
    Ok(masks)
}
