//! Faults of small derivations. The call does nothing; its contract states them.
ghost use Rattle.pc_judge.specs.Example as example;

/// In the derivation of `class C` and a `Main` with `let a: C iso = C`: if the note of the new object has `ref`, its
/// node is the first fault; if the local's slot is `val`, the slot is; and if the notes are missing, it is the shape.
/// If a constructor of a class with a field sets nothing, it is that constructor.
#[tactic(auto, using(crate::proofs::Faulty::faults_named))]
pub fn faults_of_small_derivations()
    ensures { example.FaultsNamed }
{}
