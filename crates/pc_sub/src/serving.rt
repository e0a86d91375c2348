//! Which entities have a method for one that a trait or an interface declares.
ghost use Rattle.std.specs.Prelude.{◌≡◌, ◌⊎◌, ◌↔◌, ℕ, ◌+◌, IfOk, IsTrue, length};
ghost use Rattle.pc_core.specs.Entities.{HasFor};
ghost use Rattle.pc_core.specs.EntitySets.{Holds, HasRoom, IsSetOf};
ghost use Rattle.pc_base.specs.Lists.{Each, Has};
ghost use Rattle.pc_sub.specs.Groups as spec;

use crate::groups::{Groups, first_of, list_at};
use crate::stands::stands_for;
use pc_core::{Core, EntitySet, Method};
use std::alloc::{AllocError, Global};

// Whether the method has the name and kind of the declared one.
fn is_like(wanted: &Method, given: &Method) -> bool
    ensures { IsTrue result ↔ ((given.now.name ≡ wanted.now.name) × (given.now.kind ≡ wanted.now.kind)) }
{
    given.name == wanted.name && given.kind == wanted.kind
}

// Whether it may stand for the declared one as well.
fn serves(core: &Core, wanted: &Method, given: &Method) -> bool
    ensures { IsTrue result ↔ spec.Serves core.now wanted.now given.now }
{
    core.formed();
    is_like(wanted, given) && stands_for(core, wanted, given)
}

// Whether the methods of a group serve for the declared one.
fn group_serves(core: &Core, firsts: &[u32], group: u32, wanted: &Method) -> bool
    ensures { IsTrue result ↔ spec.GroupServes core.now firsts.now wanted.now group }
{
    match first_of(core, firsts, group) {
        None => false,
        Some(first) => serves(core, wanted, first),
    }
}

// Adds these entities to the set.
fn add_all(set: &mut EntitySet, entities: &[u32])
    requires { Each (λ i e. HasRoom (e + 1) set.old) entities.now }
    ensures room { length set.new ≡ length set.old }
    ensures has { (e : ℕ) → (Holds set.new e) ↔ (Has entities.now e ⊎ Holds set.old e) }
{
    for entity in entities {
        set.add(*entity);
    }
}

// Adds the entities of a group to the set, if its methods serve for the declared one.
fn add_group(core: &Core, groups: &Groups, set: &mut EntitySet, group: u32, wanted: &Method)
    requires grouped { spec.Grouped core.now (length core.now.methods) groups.now }
    requires room { HasRoom (length core.now.entities) set.old }
    ensures room { length set.new ≡ length set.old }
    ensures has { (e : ℕ) → (Holds set.new e) ↔ (spec.ServesBy core.now groups.now wanted.now group e ⊎ Holds set.old e) }
{
    core.formed();
    if group_serves(core, groups.firsts.as_slice(), group, wanted) {
        add_all(set, list_at(&groups.entities, group as usize));
    }
}

/// The entities that have a method for the declared one.
pub(crate) fn entities_with(
    alloc: Global,
    core: &Core,
    groups: &Groups,
    wanted: &Method,
) -> Result<EntitySet, AllocError>
    requires { spec.Grouped core.now (length core.now.methods) groups.now }
    ensures { IfOk result (IsSetOf core.now (λ e. HasFor core.now e wanted.now)) }
{
    core.formed();
    let mut set = EntitySet::none(alloc, core.entities().len())?;
    for group in list_at(&groups.named, wanted.name as usize) {
        add_group(core, groups, &mut set, *group, wanted);
    }
    Ok(set)
}
