//! Faults and subtypes of small declarations. The calls do nothing; their contracts state the facts.
ghost use Rattle.pc_sub.specs.Example as example;

/// A `fun box` or a `fun tag` may replace a trait's `fun box`. A `fun ref` may not, and is the first fault; so is the
/// trait's method if the class has none, and a parameter of a behaviour that is `ref`.
#[tactic(auto, using(crate::proofs::Computed::faults_named))]
pub fn faults_of_small_declarations()
    ensures { example.FaultsNamed }
{}

/// A class with a `fun box` or a `fun tag` is below an interface with a `fun box` that it does not name, and one with a
/// `fun ref` is not. It is below no trait that it does not name. If the result of its method is below that of the
/// interface's method by its methods alone, it is not below the interface.
#[tactic(auto, using(crate::proofs::Computed::subtypes_shown))]
pub fn subtypes_of_small_declarations()
    ensures { example.SubtypesShown }
{}
