//! Chains of `is`.
ghost use Rattle.std.specs.Prelude.{◌≡◌, slice_get};
ghost use Rattle.pc_sub.specs.DeclarationFaults as spec;

use pc_core::Core;

// Whether the number is one of these.
fn is_in(number: u32, numbers: &[u32]) -> bool
    ensures { result ≡ spec.is_in number numbers.now }
{
    for other in numbers {
        if *other == number {
            return true;
        }
    }
    false
}

// What is above an entity.
fn above(core: &Core, entity: u32) -> &[u32]
    ensures { result.now ≡ spec.above_in (slice_get core.now.entities entity) }
{
    match core.entity_at(entity) {
        Some(found) => found.above.as_slice(),
        None => &[],
    }
}

/// Whether the two are equal, or a chain of `is` leads from the first to the second.
pub(crate) fn is_chain(core: &Core, from: u32, to: u32) -> bool
    ensures { result ≡ spec.is_chain core.now from to }
{
    from == to || is_in(to, above(core, from))
}
