//! Whether an annotation is valid.
ghost use Rattle.std.specs.Prelude.{◌≡◌, ◌↔◌, IsOk, IsTrue, Err, MatchResult};
ghost use Rattle.pc_sub.specs.Declarations.{DeclOk};
ghost use Rattle.pc_valid.specs.Valid.{Valid};
ghost use Rattle.pc_judge.specs.Faults as spec;
ghost use Rattle.pc_judge.specs.AtNodes as atnodes;

use crate::faults::JudgeFault;
use crate::nodes::judge_nodes;
use crate::slots::wrong_slot;
use pc_ann::Ann;
use pc_core::Core;
use pc_sub::declarations;

/// Whether the annotation is valid for the core, whatever numbers it contains. The fault is the first one in this
/// order: the first declaration that fails; that there is not one entry for each slot and one note for each node; the
/// first slot whose type is not the one that is written for it; and then, node by node, that the node does not satisfy
/// the rule of its note, or that it is the last one of a constructor and some field is not set after it. Does not
/// allocate.
pub fn judge(core: &Core, ann: &Ann) -> Result<(), JudgeFault>
    ensures ok { IsOk result ↔ Valid core.now ann.now }
    ensures fault { (f : atnodes.AnnotationFault) → (result ≡ Err f) ↔ spec.FirstAnnotationFault core.now ann.now f }
{
    core.formed();
    judge_declarations(core, ann)
}

fn judge_declarations(core: &Core, ann: &Ann) -> Result<(), JudgeFault>
    ensures { MatchResult result (λ v. Valid core.now ann.now) (λ f. spec.FirstAnnotationFault core.now ann.now f) }
{
    match declarations(core) {
        Err(fault) => Err(JudgeFault::Decl(fault)),
        Ok(()) => judge_shape(core, ann),
    }
}

// Whether there is one entry for each slot and one note for each node.
fn has_shape(core: &Core, ann: &Ann) -> bool
    ensures { IsTrue result ↔ spec.HasShape core.now ann.now }
{
    ann.slots.len() == core.slots().len() && ann.notes.len() == core.nodes().len()
}

fn judge_shape(core: &Core, ann: &Ann) -> Result<(), JudgeFault>
    requires { DeclOk core.now }
    ensures { MatchResult result (λ v. Valid core.now ann.now) (λ f. spec.FirstAnnotationFault core.now ann.now f) }
{
    if has_shape(core, ann) {
        judge_slots(core, ann)
    } else {
        Err(JudgeFault::Shape)
    }
}

fn judge_slots(core: &Core, ann: &Ann) -> Result<(), JudgeFault>
    requires declarations { DeclOk core.now }
    requires shape { spec.HasShape core.now ann.now }
    ensures { MatchResult result (λ v. Valid core.now ann.now) (λ f. spec.FirstAnnotationFault core.now ann.now f) }
{
    match wrong_slot(core, ann) {
        Some(slot) => Err(JudgeFault::Slot(slot)),
        None => judge_nodes(core, ann),
    }
}
