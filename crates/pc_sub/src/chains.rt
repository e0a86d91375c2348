//! Chains of `is`, by a search among what is above an entity.
ghost use Rattle.std.specs.Prelude.{◌≡◌, ◌↔◌, IsTrue};
ghost use Rattle.pc_core.specs.Entities.{Leads};
ghost use Rattle.pc_base.specs.Lists.{Ascends, Has};
ghost use Rattle.pc_sub.specs.DeclarationFaults as spec;

use pc_core::Core;

// Whether the two are the same, or a chain of `is` leads from one to the other.
pub(crate) fn is_chain(core: &Core, from: u32, to: u32) -> bool
    ensures { result ≡ spec.is_chain core.now from to }
{
    core.formed();
    from == to || leads(core, from, to)
}

// Whether a chain of one or more `is` leads from one to the other.
fn leads(core: &Core, from: u32, to: u32) -> bool
    ensures { IsTrue result ↔ Leads core.now from to }
{
    core.formed();
    match core.entity_at(from) {
        None => false,
        Some(entity) => contains(entity.above.as_slice(), to),
    }
}

// Whether the number is in the list, by binary search.
fn contains(numbers: &[u32], wanted: u32) -> bool
    requires { Ascends numbers.now }
    ensures { IsTrue result ↔ Has numbers.now wanted }
{
    numbers.binary_search(&wanted).is_ok()
}
