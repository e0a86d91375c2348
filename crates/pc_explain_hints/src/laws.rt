//! Laws of hints, as a call that does nothing.
ghost use Rattle.pc_explain_hints.specs.Laws.{HintEnters, HintFits, HintIsBelow};

/// What a hint promises fits what it is proposed for: a capability that a form does not fit, a form that it is not
/// below, or the capability with which a value is written.
pub fn hints_fit()
    ensures fits { HintFits }
    ensures below { HintIsBelow }
    ensures enters { HintEnters }
{}
