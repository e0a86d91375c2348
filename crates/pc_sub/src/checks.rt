//! Whether the declarations of a program fit each other.
ghost use Rattle.std.specs.Prelude.{◌≡◌, ◌↔◌, IsOk, IfErr};
ghost use Rattle.pc_sub.specs.Declarations as spec;
ghost use Rattle.pc_sub.specs.DeclarationFaults as faults;
ghost use Rattle.pc_sub.specs.FirstFault.{IsFirstDeclarationFault};

use crate::faults::DeclFault;
use crate::parameters::parameter_fault;
use crate::traits::entity_fault;
use pc_core::Core;

/// Checks the declarations: what must be sendable is, and each entity conforms to each trait and interface of its `is`
/// list. The parameters come first, method by method; then, entity by entity, the traits and interfaces of its `is`
/// list in order, and for each its methods in order. The fault is the first one in this order. Does not allocate.
#[tactic(auto, using(crate::specs::Faults::none_iff_fits, crate::proofs::FirstFaults::first_is))]
pub fn declarations(core: &Core) -> Result<(), DeclFault>
    ensures ok { IsOk result ↔ spec.DeclOk core.now }
    ensures fault { IfErr result (IsFirstDeclarationFault core.now) }
{
    core.formed();
    match first_fault(core) {
        None => Ok(()),
        Some(fault) => Err(fault),
    }
}

// The first declaration that fails.
#[tactic(auto, using(crate::specs::Faults::passed, crate::specs::Faults::stopped))]
fn first_fault(core: &Core) -> Option<DeclFault>
    ensures { result ≡ faults.first_fault core.now }
{
    match parameter_fault(core) {
        None => entity_fault(core),
        Some(fault) => Some(fault),
    }
}
