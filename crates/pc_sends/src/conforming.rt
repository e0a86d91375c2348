//! The entities that a value may have.
ghost use Rattle.std.specs.Prelude.{◌≡◌, ◌↔◌, ◌<◌, ℕ, length, IsTrue, IfOk};
ghost use Rattle.pc_core.specs.Further.{IsAbstract};
ghost use Rattle.pc_base.specs.Lists.{Has};
ghost use Rattle.pc_sends.specs.Tables as spec;
ghost use Rattle.pc_sends.specs.Found as finding;

use pc_base::List;
use pc_core::Core;
use pc_sub::conforms;
use std::alloc::{AllocError, Global};

// Whether the entity is a trait or an interface.
fn is_abstract(core: &Core, entity: u32) -> bool
    ensures { IsTrue result ↔ IsAbstract core.now entity }
{
    match core.entity_at(entity) {
        None => false,
        Some(found) => found.kind.is_abstract(),
    }
}

// Whether the entities are the same, or the second is a trait or an interface to which the first conforms.
fn is_one(core: &Core, entity: u32, known: u32) -> bool
    ensures { IsTrue result ↔ spec.IsOrConformsTo core.now entity known }
{
    entity == known || is_abstract(core, known) && conforms(core, entity, known)
}

// Whether a value that is known to be of entity `known` may be of this entity.
fn may_be(core: &Core, entity: u32, known: u32) -> bool
    ensures { IsTrue result ↔ spec.MayBe core.now entity known }
{
    match core.entity_at(entity) {
        None => false,
        Some(found) => !found.kind.is_abstract() && is_one(core, entity, known),
    }
}

// The entities that a value may have if it is known to be of the trait or interface `known`.
fn all_below(alloc: Global, core: &Core, known: u32) -> Result<List<u32>, AllocError>
    ensures { IfOk result (λ entities. (d : ℕ) → Has entities d ↔ spec.MayBe core.now d known) }
{
    core.formed();
    let mut entities = List::new(alloc);
    for entity in 0..core.entities().len() as u32 {
        if may_be(core, entity, known) {
            entities.push(entity)?;
        }
    }
    Ok(entities)
}

// Just this entity, which is neither a trait nor an interface.
fn alone(alloc: Global, core: &Core, known: u32) -> Result<List<u32>, AllocError>
    requires there { known < length core.now.entities }
    requires concrete { IsAbstract core.now known → ⊥ }
    ensures { IfOk result (λ entities. (d : ℕ) → Has entities d ↔ spec.MayBe core.now d known) }
{
    let mut entities = List::new(alloc);
    entities.push(known)?;
    Ok(entities)
}

// The entities that a value may have if it is known to be of entity `known`. They differ from it only if it is a trait
// or an interface.
fn all_of(alloc: Global, core: &Core, known: u32) -> Result<List<u32>, AllocError>
    requires { known < length core.now.entities }
    ensures { IfOk result (λ entities. (d : ℕ) → Has entities d ↔ spec.MayBe core.now d known) }
{
    if is_abstract(core, known) {
        all_below(alloc, core, known)
    } else {
        alone(alloc, core, known)
    }
}

/// For each entity of the core, the entities that a value may have if it is known to be of it.
pub(crate) fn list_all(alloc: Global, core: &Core) -> Result<List<List<u32>>, AllocError>
    ensures { IfOk result (λ lists. finding.ListsMayBe core.now lists) }
{
    core.formed();
    let mut lists = List::new(alloc);
    for known in 0..core.entities().len() as u32 {
        lists.push(all_of(alloc, core, known)?)?;
    }
    Ok(lists)
}
