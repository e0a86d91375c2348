//! What the faults mean: there is no valid annotation, and no other fault. Each call does nothing, and its contract is
//! the law.
ghost use Rattle.pc_check.specs.Laws as law;

/// A core with a node to which no rule applies has no valid annotation.
pub fn nothing_is_derivable_without_a_rule()
    ensures { law.NoneWithoutRule }
{}

/// A core with a constructor that leaves a field unset has no valid annotation.
pub fn nothing_is_derivable_with_a_field_unset()
    ensures { law.NoneWithUnset }
{}

/// A core with a declaration that fails has no valid annotation.
#[tactic(auto, using(crate::proofs::Agreement::none_with_fault))]
pub fn nothing_is_derivable_with_a_declaration_that_fails()
    ensures { law.NoneWithFault }
{}

/// A core has at most one fault: one node to which no rule applies, or one constructor that is the first to leave a
/// field unset, and not both.
pub fn faults_are_one()
    ensures node { law.OneNode }
    ensures constructor { law.OneConstructor }
    ensures kind { law.OneKindOfFault }
{}

/// The notes before a node are the same in all annotations that have them.
#[tactic(auto, using(crate::proofs::OneFault::prefixes_same))]
pub fn prefixes_agree()
    ensures { law.PrefixesAgree }
{}
