//! Why a value has no type.
ghost use Rattle.std.specs.Prelude.{◌≡◌, ◌++◌, OnOk, slice_get};
ghost use Rattle.pc_rules.specs.Parts.{last_child as last_child_is};
ghost use Rattle.pc_explain_sentences.specs.Untyped as spec;

use crate::fills::{Fill, push_filled};
use crate::stop::Stop;
use crate::texts::{
    ASSIGNED, BRANCHES, DEFINED, FIRST_BRANCH, LAST_ITEM, LENT, SECOND_BRANCH, WRITTEN,
};
use pc_core::{Node, NodeKind};
use pc_explain_window::push_bytes;
use pc_explain_words::{Scene, child};
use std::alloc::{AllocError, Global};

/// A step to the part, by number, because of which a node has no type.
#[derive(Clone, Copy, Debug, PartialEq, Eq)]
pub enum Step {
    LastItem(u32),
    FirstBranch(u32),
    SecondBranch(u32),
}

fn last_child(children: &[u32]) -> Option<u32>
    ensures { result ≡ last_child_is children.now }
{
    children.get(children.len().saturating_sub(1)).copied()
}

fn item_step(last: Option<u32>) -> Option<Step>
    ensures { result ≡ spec.item_step last }
{
    match last {
        Some(item) => Some(Step::LastItem(item)),
        None => None,
    }
}

// The branch that has no type.
fn branch_step(scene: &Scene, first: Option<u32>, second: Option<u32>) -> Option<Step>
    ensures { result ≡ spec.branch_step scene.now first second }
{
    let first = first?;
    let second = second?;
    if scene.type_of(first).is_none() {
        Some(Step::FirstBranch(first))
    } else if scene.type_of(second).is_none() {
        Some(Step::SecondBranch(second))
    } else {
        None
    }
}

fn is_seq(kind: &NodeKind) -> bool
    ensures { result ≡ spec.is_seq_node kind.now }
{
    matches!(kind, NodeKind::Seq)
}

fn is_if(kind: &NodeKind) -> bool
    ensures { result ≡ spec.is_if_node kind.now }
{
    matches!(kind, NodeKind::If)
}

fn step_by(scene: &Scene, node: &Node) -> Option<Step>
    ensures { result ≡ spec.step_by scene.now node.now node.now.kind }
{
    if is_seq(&node.kind) {
        item_step(last_child(node.children.as_slice()))
    } else if is_if(&node.kind) {
        branch_step(scene, child(node, 1), child(node, 2))
    } else {
        None
    }
}

// The step from the node with this number.
fn step_of(scene: &Scene, node: u32) -> Option<Step>
    ensures { result ≡ spec.untyped_step scene.now (slice_get scene.now.core.nodes node) }
{
    match scene.core().node_at(node) {
        Some(found) => step_by(scene, found),
        None => None,
    }
}

fn step_words(step: Step) -> &'static [u8]
    ensures { result.now ≡ spec.step_words step }
{
    match step {
        Step::LastItem(_) => LAST_ITEM,
        Step::FirstBranch(_) => FIRST_BRANCH,
        Step::SecondBranch(_) => SECOND_BRANCH,
    }
}

fn step_to(step: Step) -> u32
    ensures { result ≡ spec.step_to step }
{
    match step {
        Step::LastItem(node) | Step::FirstBranch(node) | Step::SecondBranch(node) => node,
    }
}

// Appends the reason of a definition, or else of an assignment.
fn push_stored_reason(
    alloc: Global,
    out: &mut Vec<u8>,
    stop: &Stop,
    defined: Option<u32>,
    stored: Option<u32>,
) -> Result<(), AllocError>
    ensures { OnOk result (out.new.items ≡ out.old.items ++ spec.stored_reason stop.now defined stored) }
{
    match (defined, stored) {
        (Some(_), _) => push_filled(alloc, out, stop, DEFINED, &[]),
        (None, Some(slot)) => push_filled(alloc, out, stop, ASSIGNED, &[Fill::Slot(slot)]),
        (None, None) => Ok(()),
    }
}

// Appends the reason of a call, or else of those.
fn push_called_reason(
    alloc: Global,
    out: &mut Vec<u8>,
    stop: &Stop,
    called: Option<u32>,
) -> Result<(), AllocError>
    ensures { OnOk result (out.new.items ≡ out.old.items ++ spec.called_reason stop.now called) }
{
    let kind = &stop.node().kind;
    match called {
        Some(name) => push_filled(alloc, out, stop, LENT, &[Fill::Name(name), Fill::Result]),
        None => push_stored_reason(alloc, out, stop, kind.defined_slot(), kind.stored_slot()),
    }
}

// Appends the reason of the write of a field, or else of those.
fn push_written_reason(
    alloc: Global,
    out: &mut Vec<u8>,
    stop: &Stop,
    written: Option<u32>,
) -> Result<(), AllocError>
    ensures { OnOk result (out.new.items ≡ out.old.items ++ spec.written_reason stop.now written) }
{
    match written {
        Some(name) => push_filled(alloc, out, stop, WRITTEN, &[Fill::Name(name)]),
        None => push_called_reason(alloc, out, stop, stop.node().kind.called_name()),
    }
}

// Appends the reason for a node that makes no step.
fn push_reason_of(alloc: Global, out: &mut Vec<u8>, stop: &Stop) -> Result<(), AllocError>
    ensures { OnOk result (out.new.items ≡ out.old.items ++ spec.reason_of_stop stop.now) }
{
    let kind = &stop.node().kind;
    if is_if(kind) {
        let branches = [Fill::PartType(1), Fill::PartType(2)];
        push_filled(alloc, out, stop, BRANCHES, &branches)
    } else {
        push_written_reason(alloc, out, stop, kind.field_written())
    }
}

// Appends the reason for the node with this number.
fn push_own_reason(
    alloc: Global,
    out: &mut Vec<u8>,
    scene: &Scene,
    node: u32,
) -> Result<(), AllocError>
    ensures { OnOk result (out.new.items ≡ out.old.items ++ spec.own_reason scene.now node) }
{
    match scene.core().node_at(node) {
        Some(found) => push_reason_of(alloc, out, &Stop::without_masks(scene, node, found)),
        None => Ok(()),
    }
}

// Appends the steps, at most this many, to the part because of which a node has no type, and then that part's own
// reason.
#[tactic(auto, using(crate::proofs::Reasons::stops, crate::proofs::Reasons::none_left))]
fn push_reason_from(
    alloc: Global,
    out: &mut Vec<u8>,
    scene: &Scene,
    count: usize,
    node: u32,
) -> Result<(), AllocError>
    ensures { OnOk result (out.new.items ≡ out.old.items ++ spec.reason_from scene.now count node) }
{
    let mut at = node;
    for _step in 0..count {
        match step_of(scene, at) {
            None => return push_own_reason(alloc, out, scene, at),
            Some(step) => {
                push_bytes(out, step_words(step))?;
                at = step_to(step);
            }
        }
    }
    push_own_reason(alloc, out, scene, at)
}

/// Appends why the node with this number has no type.
#[tactic(auto, unfolding(crate::specs::Untyped::reason))]
pub(crate) fn push_reason(
    alloc: Global,
    out: &mut Vec<u8>,
    scene: &Scene,
    node: u32,
) -> Result<(), AllocError>
    ensures { OnOk result (out.new.items ≡ out.old.items ++ spec.reason scene.now node) }
{
    push_reason_from(alloc, out, scene, scene.core().nodes().len(), node)
}
