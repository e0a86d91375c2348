//! Nodes, each after its children, and what is set after the last node of a constructor.
ghost use Rattle.std.specs.Prelude.{◌≡◌, Some, MatchOption, MatchResult, length, slice_get};
ghost use Rattle.pc_valid.specs.Valid.{Valid};
ghost use Rattle.pc_judge.specs.Faults as spec;
ghost use Rattle.pc_judge.specs.AtNodes as atnodes;
ghost use Rattle.pc_judge.specs.Computed as computed;

use crate::faults::JudgeFault;
use pc_ann::{Ann, Note};
use pc_core::{Core, Method, Node};
use pc_rules::{constructs, full, rule_holds};

// Whether the node with this number is the body of the method.
fn ends(body: Option<u32>, number: u32) -> bool
    ensures { result ≡ computed.ends body number }
{
    match body {
        None => false,
        Some(last) => last == number,
    }
}

// Whether the method is a constructor with this body, and some field is not set after it.
fn unset_behind(core: &Core, number: u32, method: &Method, note: Note) -> bool
    ensures { result ≡ computed.unset_behind core.now number method.now note }
{
    constructs(method.kind)
        && (ends(method.body, number) && !full(core, method.entity, note.set_after))
}

// The same for the method with this number.
fn leaves_unset(core: &Core, ann: &Ann, number: u32, method: u32) -> bool
    ensures { result ≡ computed.leaves_unset core.now ann.now number method }
{
    match (core.method_at(method), ann.notes.get(number as usize)) {
        (Some(found), Some(note)) => unset_behind(core, number, found, *note),
        (_, _) => false,
    }
}

// The fault at the node with this number.
#[tactic(auto, using(crate::proofs::AtNode::passes, crate::proofs::AtNode::fails_rule, crate::proofs::AtNode::fails_set))]
fn fault_at(core: &Core, ann: &Ann, number: u32, node: &Node) -> Option<JudgeFault>
    requires slots { length ann.now.slots ≡ length core.now.slots }
    requires notes { length ann.now.notes ≡ length core.now.nodes }
    requires node { slice_get core.now.nodes number ≡ Some node.now }
    ensures { MatchOption result (atnodes.NodePasses core.now ann.now number) (λ f. atnodes.FailsAt core.now ann.now number f) }
{
    core.formed();
    if !rule_holds(core, ann, number) {
        Some(JudgeFault::Node(number))
    } else if leaves_unset(core, ann, number, node.method) {
        Some(JudgeFault::Unset(node.method))
    } else {
        None
    }
}

// Node by node.
pub(crate) fn judge_nodes(core: &Core, ann: &Ann) -> Result<(), JudgeFault>
    requires { spec.NothingWrongBefore core.now ann.now 0 }
    ensures { MatchResult result (λ v. Valid core.now ann.now) (λ f. spec.FirstAnnotationFault core.now ann.now f) }
{
    core.formed();
    let mut number = 0;
    for node in core.nodes() {
        match fault_at(core, ann, number, node) {
            None => number += 1,
            Some(fault) => return Err(fault),
        }
    }
    Ok(())
}
