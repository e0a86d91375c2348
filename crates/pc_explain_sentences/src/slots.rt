//! Slots and fields that a sentence names.
ghost use Rattle.std.specs.Prelude.{◌≡◌, None, take};
ghost use Rattle.pc_base.specs.Limits.{field_limit, slot_limit};
ghost use Rattle.pc_explain_sentences.specs.Slots as spec;

use crate::stop::Stop;
use pc_ann::Note;
use pc_base::{FIELD_LIMIT, SLOT_LIMIT};
use pc_core::{Node, NodeKind};
use pc_explain_words::child;
use pc_masks::Mask;

fn consumes_as(slot: u32, kind: &NodeKind) -> bool
    ensures { result ≡ spec.consumes_as slot kind.now }
{
    match kind.consumed_slot() {
        Some(consumed) => consumed == slot,
        None => false,
    }
}

// Whether the node consumes the slot with this index of a method.
fn consumes(method: u32, slot: u32, node: &Node) -> bool
    ensures { result ≡ spec.consumes method slot node.now }
{
    node.method == method && consumes_as(slot, &node.kind)
}

// Where the last of these nodes that consumes the slot starts.
fn last_consume(nodes: &[Node], method: u32, slot: u32) -> Option<u32>
    ensures { result ≡ spec.last_consume method slot None nodes.now }
{
    let mut found = None;
    for node in nodes {
        if consumes(method, slot, node) {
            found = Some(node.span.start);
        }
    }
    found
}

// The first `count` nodes.
fn first_of(nodes: &[Node], count: u32) -> &[Node]
    ensures { result.now ≡ take count nodes.now }
{
    &nodes[..(count as usize).min(nodes.len())]
}

/// Where the last node before this one that consumes the slot starts.
#[tactic(auto, unfolding(crate::specs::Slots::consumed_at))]
pub(crate) fn consumed_at(stop: &Stop, slot: u32) -> Option<u32>
    ensures { result ≡ spec.consumed_at stop.now slot }
{
    let before = first_of(stop.core().nodes(), stop.number());
    last_consume(before, stop.node().method, slot)
}

// The note of a node.
fn note_in(stop: &Stop, node: Option<u32>) -> Option<Note>
    ensures { result ≡ spec.note_in stop.now node }
{
    match node {
        Some(number) => stop.scene().notes().get(number as usize).copied(),
        None => None,
    }
}

// The note of a loop's body.
fn body_note(stop: &Stop) -> Option<Note>
    ensures { result ≡ spec.loop_body_note stop.now }
{
    note_in(stop, child(stop.node(), 1))
}

fn live_after(stop: &Stop, note: Option<Note>) -> Mask
    ensures { result ≡ spec.live_after stop.now note }
{
    match note {
        Some(found) => found.live_after,
        None => stop.live(),
    }
}

fn set_after(stop: &Stop, note: Option<Note>) -> Mask
    ensures { result ≡ spec.set_after stop.now note }
{
    match note {
        Some(found) => found.set_after,
        None => stop.set(),
    }
}

fn is_lost(before: Mask, after: Mask, slot: u32) -> bool
    ensures { result ≡ spec.is_lost before after slot }
{
    before.has(slot) && !after.has(slot)
}

fn differs(before: Mask, after: Mask, field: u32) -> bool
    ensures { result ≡ spec.differs before after field }
{
    if before.has(field) {
        !after.has(field)
    } else {
        after.has(field)
    }
}

#[tactic(auto, using(crate::proofs::Least::lost_next, crate::proofs::Least::lost_here, crate::proofs::Least::lost_none))]
fn first_lost(before: Mask, after: Mask) -> u32
    ensures { result ≡ spec.least (spec.is_lost before after) slot_limit 0 }
{
    for slot in 0..SLOT_LIMIT {
        if is_lost(before, after, slot) {
            return slot;
        }
    }
    0
}

#[tactic(auto, using(crate::proofs::Least::differs_next, crate::proofs::Least::differs_here, crate::proofs::Least::differs_none))]
fn first_different(before: Mask, after: Mask) -> u32
    ensures { result ≡ spec.least (spec.differs before after) field_limit 0 }
{
    for field in 0..FIELD_LIMIT {
        if differs(before, after, field) {
            return field;
        }
    }
    0
}

/// The first slot that is live before a loop, but not after its body.
#[tactic(auto, unfolding(crate::specs::Slots::lost_slot))]
pub fn lost_slot(stop: &Stop) -> u32
    ensures { result ≡ spec.lost_slot stop.now }
{
    first_lost(stop.live(), live_after(stop, body_note(stop)))
}

/// The first field that is set in the loop's body.
#[tactic(auto, unfolding(crate::specs::Slots::looped_field))]
pub(crate) fn looped_field(stop: &Stop) -> u32
    ensures { result ≡ spec.looped_field stop.now }
{
    first_different(stop.set(), set_after(stop, body_note(stop)))
}
