//! Laws of the rules. Each call does nothing, and its contract is the law.
ghost use Rattle.pc_rules.specs.Statements as law;

/// A rule and the masks before a node determine its type and the masks after it.
#[tactic(auto, using(crate::proofs::Lawful::rules_determine))]
pub fn rules_determine()
    ensures { law.RulesDetermine }
{}

/// A `consume` removes one slot from the live ones.
#[tactic(auto, using(crate::proofs::Lawful::consume_takes_out))]
pub fn consume_takes_out()
    ensures { law.ConsumeTakesOut }
{}

/// A definition adds one slot to the live ones.
#[tactic(auto, using(crate::proofs::Lawful::define_puts_in))]
pub fn define_puts_in()
    ensures { law.DefinePutsIn }
{}

/// A sequence removes the slots that its items define from the live ones.
#[tactic(auto, using(crate::proofs::Lawful::seq_takes_out))]
pub fn seq_takes_out()
    ensures { law.SeqTakesOut }
{}

/// At most one annotation of a core is valid: the masks follow from those with which the methods start, and each rule
/// determines its type.
pub fn one_annotation_is_valid()
    ensures { law.OneValid }
{}

/// The conclusion of a computed rule for a node is what its note states iff the record of the rule holds for the note.
pub fn rules_say_what_is_meant()
    ensures { law.SaysWhatIsMeant }
{}

/// A node has a note that is the conclusion of its rule iff it satisfies its rule by the records.
pub fn meets_the_same_rules()
    ensures { law.MeetsTheSameRules }
{}

/// An annotation is valid as computed iff it is valid by the records.
pub fn same_are_valid()
    ensures { law.SameAreValid }
{}

/// No computed rule applies to a node iff no record holds there.
pub fn same_have_no_rule()
    ensures { law.SameHaveNoRule }
{}

/// A constructor leaves a field unset as computed iff it does so by the relations.
pub fn same_are_unset()
    ensures { law.SameAreUnset }
{}
