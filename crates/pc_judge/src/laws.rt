//! Laws of faults. Each call does nothing, and its contract is the law.
ghost use Rattle.pc_judge.specs.Laws as law;

/// A core and an annotation have at most one first fault.
#[tactic(auto, using(crate::proofs::Exact::one_first))]
pub fn one_fault_is_first()
    ensures { law.OneFirst }
{}

/// If there is a first fault, the annotation is not valid.
#[tactic(auto, using(crate::proofs::Exact::not_valid))]
pub fn faulted_is_not_valid()
    ensures { law.NotValid }
{}
