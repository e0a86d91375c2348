//! What conforms to what, by a table.
ghost use Rattle.std.specs.Prelude.{◌≡◌, ◌↔◌, ◌<◌, IfSome, IsTrue, length};
ghost use Rattle.pc_core.specs.Conforming.{TellsConforming};
ghost use Rattle.pc_core.specs.Entities.{Conforms};
ghost use Rattle.pc_core.specs.Further.{IsAbstract};

use crate::cores::Core;
use crate::entity_set::EntitySet;
use pc_base::List;

impl Core {
    /// Keeps a table of what conforms to what, for later calls of `known_to_conform`: at the number of each trait and
    /// interface the set of the entities that conform to it. In contracts the core is unchanged.
    pub fn keep_conforming(&mut self, sets: List<EntitySet>)
        requires { TellsConforming self.old sets }
        ensures { self.new ≡ self.old }
    {
        self.formed();
        self.conforming = Some(sets);
    }

    /// Whether the entity conforms to the trait or interface `above`, by a look-up in the table that was given to
    /// `keep_conforming`. `None` if there is none, or no such entity, trait or interface. Does not allocate.
    pub fn known_to_conform(&self, entity: u32, above: u32) -> Option<bool>
        ensures { IfSome result (λ known. IsTrue known ↔ Conforms self.now entity above) }
    {
        match &self.conforming {
            None => None,
            Some(sets) => told(self, sets, entity, above),
        }
    }

    /// Whether the entity is a trait or an interface.
    pub fn is_abstract(&self, entity: u32) -> bool
        ensures { IsTrue result ↔ IsAbstract self.now entity }
    {
        match self.entity_at(entity) {
            None => false,
            Some(found) => found.kind.is_abstract(),
        }
    }
}

// Whether there is an entity with this number.
fn is_entity(core: &Core, entity: u32) -> bool
    ensures { IsTrue result ↔ (entity < length core.now.entities) }
{
    core.entity_at(entity).is_some()
}

// What the table says about the entity and the trait or interface `above`.
fn told(core: &Core, sets: &List<EntitySet>, entity: u32, above: u32) -> Option<bool>
    requires { TellsConforming core.now sets.now }
    ensures { IfSome result (λ known. IsTrue known ↔ Conforms core.now entity above) }
{
    let set = sets.get(above as usize)?;
    if core.is_abstract(above) && is_entity(core, entity) {
        Some(set.has(entity))
    } else {
        None
    }
}
