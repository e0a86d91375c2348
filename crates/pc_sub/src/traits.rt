//! What the traits and interfaces of an entity's `is` list require.
ghost use Rattle.std.specs.Prelude.{◌≡◌, slice_get};
ghost use Rattle.pc_sub.specs.DeclarationFaults as spec;

use crate::conforming::conform_fault;
use crate::faults::DeclFault;
use pc_core::Core;

// The first fault of an entity at these traits and interfaces.
fn list_fault(core: &Core, entity: u32, traits: &[u32]) -> Option<DeclFault>
    ensures { result ≡ slice_get (spec.list_faults core.now entity traits.now) 0 }
{
    for above in traits {
        match conform_fault(core, entity, *above) {
            None => {}
            Some(fault) => return Some(fault),
        }
    }
    None
}

// The first fault of all entities at the traits and interfaces of their `is` lists.
pub(crate) fn entity_fault(core: &Core) -> Option<DeclFault>
    ensures { result ≡ slice_get (spec.core_entity_faults core.now 0 core.now.entities) 0 }
{
    core.formed();
    let mut number = 0;
    for entity in core.entities() {
        match list_fault(core, number, entity.provides.as_slice()) {
            None => number += 1,
            Some(fault) => return Some(fault),
        }
    }
    None
}
