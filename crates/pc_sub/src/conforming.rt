//! Whether an entity has what a trait or an interface declares.
ghost use Rattle.std.specs.Prelude.{◌≡◌, ◌↔◌, IsTrue, ◌+◌, ◌<◌, ◌≤◌, ◌^◌, length, slice_get};
ghost use Rattle.pc_core.specs.Entities.{Conforms};
ghost use Rattle.pc_core.specs.CoreData.{own_methods};
ghost use Rattle.pc_sub.specs.DeclarationFaults as spec;

use crate::faults::DeclFault;
use crate::stands::stands_for;
use pc_core::{Core, EntityDef, Method};

/// Whether an entity conforms to the trait or interface `above`: for each method there it has one of the same name and kind
/// that may be called in its place, where entities are compared by chains of `is` alone. It is true of every entity if
/// `above` has no methods. Takes no memory. If the core has its tables (`tabulate`), it is one look-up.
pub fn conforms(core: &Core, entity: u32, above: u32) -> bool
    ensures methods { IsTrue result ↔ Conforms core.now entity above }
    ensures value { result ≡ spec.conforms core.now entity above }
{
    core.formed();
    match core.known_to_conform(entity, above) {
        Some(known) => known,
        None => nothing_is_wrong(core, entity, above),
    }
}

// The same as it is computed.
fn nothing_is_wrong(core: &Core, entity: u32, above: u32) -> bool
    ensures { result ≡ spec.conforms core.now entity above }
{
    first_fault(core, entity, above).is_none()
}

// The fault of an entity at a declared method, which has this number.
fn method_fault(core: &Core, entity: u32, number: u32, wanted: &Method) -> Option<DeclFault>
    ensures { result ≡ slice_get (spec.conformance_faults core.now entity number wanted.now (spec.method_like core.now entity wanted.now)) 0 }
{
    let missing = DeclFault::MissingMethod {
        entity,
        method: number,
    };
    match core.method(entity, wanted.name) {
        None => Some(missing),
        Some(found) => match core.method_at(found) {
            None => Some(missing),
            Some(method) => {
                if method.kind != wanted.kind {
                    Some(missing)
                } else if stands_for(core, wanted, method) {
                    None
                } else {
                    Some(DeclFault::Mismatch {
                        entity,
                        method: found,
                    })
                }
            }
        },
    }
}

// The first fault of an entity at these methods of a trait or an interface, numbered from `first` on.
fn trait_fault(core: &Core, entity: u32, first: u32, methods: &[Method]) -> Option<DeclFault>
    requires { first + length methods.now < 2 ^ 32 }
    ensures { result ≡ slice_get (spec.trait_faults core.now entity first methods.now) 0 }
{
    let mut number = first;
    for wanted in methods {
        match method_fault(core, entity, number, wanted) {
            None => number += 1,
            Some(fault) => return Some(fault),
        }
    }
    None
}

// The methods of an entity.
fn methods_of<'c>(core: &'c Core, entity: &EntityDef) -> &'c [Method]
    requires { entity.now.first_method + entity.now.methods ≤ length core.now.methods }
    ensures { result.now ≡ own_methods core.now entity.now }
{
    let first = entity.first_method as usize;
    &core.methods()[first..first + entity.methods as usize]
}

// The first fault of an entity at a trait or an interface, found by going through the methods there.
fn first_fault(core: &Core, entity: u32, above: u32) -> Option<DeclFault>
    ensures { result ≡ slice_get (spec.conform_faults core.now entity (slice_get core.now.entities above)) 0 }
{
    core.formed();
    match core.entity_at(above) {
        None => None,
        Some(found) => trait_fault(core, entity, found.first_method, methods_of(core, found)),
    }
}

// The first fault of an entity at a trait or an interface.
pub(crate) fn conform_fault(core: &Core, entity: u32, above: u32) -> Option<DeclFault>
    ensures { result ≡ slice_get (spec.conform_faults core.now entity (slice_get core.now.entities above)) 0 }
{
    core.formed();
    if conforms(core, entity, above) {
        None
    } else {
        first_fault(core, entity, above)
    }
}
