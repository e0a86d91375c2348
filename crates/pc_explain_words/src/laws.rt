//! The law of misfits, as a call that does nothing.
ghost use Rattle.pc_explain_words.specs.Misfits.{MisfitsAreAll};

/// A method can replace another iff there is nothing about it that does not fit.
#[tactic(auto, using(crate::proofs::Standing::misfits_all))]
pub fn misfits_are_all()
    ensures { MisfitsAreAll }
{}
