//! The rules applied to a small program. Each call does nothing; its contract states what the rules say there.
ghost use Rattle.pc_rules.specs.Example as example;

/// In the derivation of `class C` and a `Main` with `let a: C iso = C` each node satisfies its rule.
#[tactic(auto, using(crate::proofs::Computed::each_meets))]
pub fn each_node_meets_its_rule()
    ensures { example.EachMeets }
{}

/// Three wrong notes satisfy no rule there: the new object as `ref`, a definition that leaves its slot without a value,
/// and a sequence that keeps what it defines.
#[tactic(auto, using(crate::proofs::Computed::wrong_notes))]
pub fn wrong_notes_meet_no_rule()
    ensures { example.WrongNotes }
{}
