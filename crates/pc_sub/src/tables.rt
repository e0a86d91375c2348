//! The tables used by later calls.
ghost use Rattle.std.specs.Prelude.{◌≡◌, ◌↔◌, ℕ, ◌+◌, ◌<◌, IfOk, IsTrue, OnOk, length};
ghost use Rattle.pc_core.specs.Conforming.{TellsConforming};
ghost use Rattle.pc_core.specs.Further.{IsAbstract};
ghost use Rattle.pc_core.specs.EntitySets.{Holds};
ghost use Rattle.pc_base.specs.Lists.{Each, Has};
ghost use Rattle.pc_sub.specs.Groups.{Grouped};
ghost use Rattle.pc_sub.specs.Tables as spec;

use crate::groups::{Groups, first_of, group_methods, list_at};
use crate::serving::entities_with;
use pc_base::List;
use pc_core::{Core, EntitySet};
use std::alloc::{AllocError, Global};

// Whether one of these is a trait or an interface.
fn any_abstract(core: &Core, entities: &[u32]) -> bool
    ensures { IsTrue result ↔ ((b : ℕ) × Has entities.now b × IsAbstract core.now b) }
{
    for entity in entities {
        if core.is_abstract(*entity) {
            return true;
        }
    }
    false
}

// For each entity the set of all.
fn all_sets(alloc: Global, count: usize) -> Result<List<EntitySet>, AllocError>
    ensures long { IfOk result (λ sets. length sets ≡ count) }
    ensures all { IfOk result (Each (λ b set. (e : ℕ) → e < count → Holds set e)) }
{
    let mut sets = List::new(alloc);
    for _ in 0..count {
        sets.push(EntitySet::all(alloc, count)?)?;
    }
    Ok(sets)
}

// Removes from the set at this place what the other set does not have.
fn keep_at(
    alloc: Global,
    sets: &mut List<EntitySet>,
    place: u32,
    other: &EntitySet,
) -> Result<(), AllocError>
    ensures { OnOk result (spec.Kept (λ b. b ≡ place) other.now sets.old sets.new) }
{
    match sets.get(place as usize) {
        None => Ok(()),
        Some(set) => {
            let both = set.meet(alloc, other)?;
            sets.replace(place as usize, both);
            Ok(())
        }
    }
}

// Removes from the sets of these entities what the other set does not have.
fn keep_all(
    alloc: Global,
    sets: &mut List<EntitySet>,
    entities: &[u32],
    other: &EntitySet,
) -> Result<(), AllocError>
    ensures { OnOk result (spec.Kept (λ b. Has entities.now b) other.now sets.old sets.new) }
{
    for entity in entities {
        keep_at(alloc, sets, *entity, other)?;
    }
    Ok(())
}

// Removes, from the sets of the traits and interfaces with a method of this group, the entities that have no method for
// it.
fn keep_group(
    alloc: Global,
    core: &Core,
    groups: &Groups,
    sets: &mut List<EntitySet>,
    group: u32,
) -> Result<(), AllocError>
    requires grouped { Grouped core.now (length core.now.methods) groups.now }
    requires tells { spec.TellsGroups core.now groups.now group sets.old }
    ensures { OnOk result (spec.TellsGroups core.now groups.now (group + 1) sets.new) }
{
    let entities = list_at(&groups.entities, group as usize);
    match first_of(core, groups.firsts.as_slice(), group) {
        None => Ok(()),
        Some(first) => {
            if any_abstract(core, entities) {
                let others = entities_with(alloc, core, groups, first)?;
                keep_all(alloc, sets, entities, &others)?;
            }
            Ok(())
        }
    }
}

// The same for all groups.
fn keep_groups(
    alloc: Global,
    core: &Core,
    groups: &Groups,
    sets: &mut List<EntitySet>,
) -> Result<(), AllocError>
    requires grouped { Grouped core.now (length core.now.methods) groups.now }
    requires tells { spec.TellsGroups core.now groups.now 0 sets.old }
    ensures { OnOk result (spec.TellsGroups core.now groups.now (length groups.now.firsts) sets.new) }
{
    core.formed();
    for group in 0..groups.firsts.len() as u32 {
        keep_group(alloc, core, groups, sets, group)?;
    }
    Ok(())
}

// For each trait and interface the set of the entities that conform to it.
fn list_conforming(alloc: Global, core: &Core) -> Result<List<EntitySet>, AllocError>
    ensures { IfOk result (TellsConforming core.now) }
{
    core.formed();
    let groups = group_methods(alloc, core)?;
    let mut sets = all_sets(alloc, core.entities().len())?;
    keep_groups(alloc, core, &groups, &mut sets)?;
    Ok(sets)
}

/// Makes the tables that later calls use: the index of the methods (`Core::index_methods`), and the table of what
/// conforms to what (`Core::keep_conforming`), by which `is_sub` and `conforms` take a time that does not grow with the
/// number of methods. It allocates. In contracts the core is unchanged, and an `Err` leaves it as it was.
pub fn tabulate(alloc: Global, core: &mut Core) -> Result<(), AllocError>
    ensures { core.new ≡ core.old }
{
    core.index_methods(alloc)?;
    let sets = list_conforming(alloc, core)?;
    core.keep_conforming(sets);
    Ok(())
}
