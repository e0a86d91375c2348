//! Laws of the first declaration that fails. Each call does nothing, and its contract is the law.
ghost use Rattle.pc_sub.specs.DeclarationLaws as spec;

/// In a core whose parts fit together, the declarations fit iff none is the first that fails.
#[tactic(auto, using(crate::proofs::FirstFaults::fits_without_fault))]
pub fn no_fault_where_declarations_fit()
    ensures { spec.NoFaultWhereFit }
{}

/// At most one is the first that fails.
#[tactic(auto, using(crate::proofs::FirstFaults::one_fault))]
pub fn one_declaration_fails_first()
    ensures { spec.OneFirstFault }
{}

/// The first that fails is what is computed.
#[tactic(auto, using(crate::proofs::FirstFaults::computed))]
pub fn first_fault_is_computed()
    ensures { spec.FirstIsComputed }
{}
