//! Laws of the conditions. Each call does nothing, and its contract is the law.
ghost use Rattle.pc_explain_conditions.specs.Laws as law;

/// A rule for a node does not apply to it iff it is not considered or one of its conditions fails: for all 31 rules,
/// with the masks that reach the node.
#[tactic(auto, using(crate::proofs::Explained::conditions_are_the_rule))]
pub fn conditions_are_the_rule()
    ensures { law.ConditionsAreTheRule }
{}

/// The record of a rule holds for some note of a node iff the rule is considered and all its conditions hold.
#[tactic(auto, using(crate::proofs::Explained::conditions_are_the_record))]
pub fn conditions_are_the_record()
    ensures { law.ConditionsAreTheRecord }
{}

/// At a node to which no rule applies, each rule that is considered has one condition by which it fails: all earlier
/// ones hold, and this one does not.
#[tactic(auto, using(crate::proofs::Explained::each_rule_fails))]
pub fn each_rule_fails()
    ensures { law.EachRuleFails }
{}

/// One of the rules is considered, so there is a reason.
#[tactic(auto, using(crate::proofs::SomeReason::some_reason))]
pub fn there_is_a_reason()
    ensures { law.SomeReason }
{}

/// A core has one node to which no rule applies, and the reasons there are the same whichever notes lead to it.
#[tactic(auto, using(crate::proofs::One::one_explanation))]
pub fn one_explanation()
    ensures { law.OneExplanation }
{}
