//! Laws of explanations. Each call does nothing, and its contract is the law.
ghost use Rattle.pc_explain.specs.Laws as law;

use pc_check::{
    faults_are_one, nothing_is_derivable_with_a_declaration_that_fails,
    nothing_is_derivable_with_a_field_unset, nothing_is_derivable_without_a_rule, prefixes_agree,
};
use pc_explain_conditions::one_explanation;
use pc_sub::{no_fault_where_declarations_fit, one_declaration_fails_first};

/// A core has at most one explanation.
pub fn explanations_are_one()
    ensures { law.ExplanationsAreOne }
{
    faults_are_one();
    one_explanation();
    prefixes_agree();
    no_fault_where_declarations_fit();
    one_declaration_fails_first();
}

/// A core that has a derivation has no explanation.
pub fn accepted_has_none()
    ensures { law.AcceptedHasNone }
{
    nothing_is_derivable_with_a_declaration_that_fails();
    nothing_is_derivable_without_a_rule();
    nothing_is_derivable_with_a_field_unset();
}
