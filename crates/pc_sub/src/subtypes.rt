//! The order on entities.
ghost use Rattle.std.specs.Prelude.{◌≡◌, IsTrue, ◌↔◌, slice_get};
ghost use Rattle.pc_sub.specs.Declarations as spec;
ghost use Rattle.pc_sub.specs.Computed as computed;

use crate::chains::is_chain;
use crate::conforming::conforms;
use pc_core::Core;
use pc_tree::EntityKind;

/// Whether an entity is below `above`: they are the same, or a chain of `is` leads from it to `above`, or `above` is an
/// interface to which it conforms (nominal and structural subtyping, in the Pony tutorial). Does not allocate.
#[tactic(auto, using(crate::specs::Agreement::is_sub_iff))]
pub fn is_sub(core: &Core, entity: u32, above: u32) -> bool
    ensures order { IsTrue result ↔ spec.Sub core.now entity above }
    ensures value { result ≡ computed.is_sub core.now entity above }
{
    core.formed();
    is_below(core, entity, above)
}

// The same as it is computed.
fn is_below(core: &Core, entity: u32, above: u32) -> bool
    ensures { result ≡ computed.is_sub core.now entity above }
{
    is_chain(core, entity, above) || is_interface(core, above) && conforms(core, entity, above)
}

// Whether there is an interface with this number.
fn is_interface(core: &Core, entity: u32) -> bool
    ensures { result ≡ computed.is_interface (slice_get core.now.entities entity) }
{
    match core.entity_at(entity) {
        None => false,
        Some(found) => is_structural(found.kind),
    }
}

// Whether an entity is below one of this kind if it has its methods, without naming it.
fn is_structural(kind: EntityKind) -> bool
    ensures { result ≡ spec.is_structural kind }
{
    match kind {
        EntityKind::Class => false,
        EntityKind::Actor => false,
        EntityKind::Primitive => false,
        EntityKind::Trait => false,
        EntityKind::Interface => true,
    }
}
