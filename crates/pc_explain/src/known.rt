//! The types of slots, as far as the notes of the first nodes determine them.
ghost use Rattle.std.specs.Prelude.{◌≡◌, ◌<◌, None, length, take, IfOk, slice_get, slice_set};
ghost use Rattle.pc_check.specs.Inference as inference;
ghost use Rattle.pc_explain.specs.Known as spec;

use pc_ann::{Ann, Note};
use pc_base::List;
use pc_caps::{Cap, Form, stored};
use pc_core::{Core, Node, Slot};
use pc_tree::NONE_ENTITY;
use std::alloc::{AllocError, Global};
use std::marker::Model;

/// The types of the slots and the notes of the first nodes, which contracts see as an annotation.
#[derive(Drop)]
pub(crate) struct Known<'a> {
    slots: List<(u32, Cap)>,
    notes: &'a [Note],
}

impl<'a> Model for Known<'a> {
    ghost use Rattle.pc_ann.specs.declared.annotation.Ann.{Ann};

    ghost Value = { Ann };

    ghost view = { λ k. record { slots = k.slots; notes = k.notes.now } };
}

impl<'a> Known<'a> {
    // These types and notes.
    fn new(slots: List<(u32, Cap)>, notes: &'a [Note]) -> Known<'a>
        ensures { result ≡ spec.ann_of slots notes.now }
    {
        Known { slots, notes }
    }

    // The note of a node.
    fn note(&self, node: u32) -> Option<Note>
        ensures { result ≡ slice_get self.now.notes node }
    {
        self.notes.get(node as usize).copied()
    }

    // Changes the type of the slot at this place.
    fn replace(&mut self, place: usize, ty: (u32, Cap))
        requires { place < length self.old.slots }
        ensures { self.new ≡ spec.ann_of (slice_set self.old.slots place ty) self.old.notes }
    {
        self.slots.replace(place, ty);
    }

    // The types.
    fn into_slots(self) -> List<(u32, Cap)>
        ensures { result ≡ self.entry.slots }
    {
        let Known { slots, .. } = self;
        slots
    }
}

// The written type of a slot, or any if none is written.
fn written_type(slot: &Slot) -> (u32, Cap)
    ensures { result ≡ inference.written_type slot.now.written }
{
    match slot.written {
        Some(ty) => ty,
        None => (NONE_ENTITY, Cap::Tag),
    }
}

// The written types of the slots.
fn first_types(alloc: Global, core: &Core) -> Result<Vec<(u32, Cap)>, AllocError>
    ensures { IfOk result (λ types. types.items ≡ inference.first_types core.now) }
{
    core.slots()
        .iter()
        .map(|slot| written_type(slot))
        .collect(alloc)
}

// The type of an only child.
fn value_type(known: &Known, children: &[u32]) -> Option<(u32, Form)>
    ensures { result ≡ inference.unwritten known.now children.now None }
{
    match children {
        [child] => {
            let note = known.note(*child)?;
            note.ty
        }
        _ => None,
    }
}

// The type of a definition's value, if its slot has no written type.
fn unwritten(known: &Known, children: &[u32], written: Option<(u32, Cap)>) -> Option<(u32, Form)>
    ensures { result ≡ inference.unwritten known.now children.now written }
{
    match written {
        Some(_) => None,
        None => value_type(known, children),
    }
}

// The place of a slot whose type follows from its definition, and that type.
fn slot_type(core: &Core, known: &Known, node: &Node, slot: u32) -> Option<(usize, (u32, Cap))>
    ensures { result ≡ inference.inferred_slot_type core.now known.now node.now slot }
{
    let method = core.method_at(node.method)?;
    let declared = core.slot_at(method, slot)?;
    let value = unwritten(known, node.children.as_slice(), declared.written)?;
    Some((
        method.first_slot as usize + slot as usize,
        (value.0, stored(value.1)),
    ))
}

// The same for a node that may define a slot.
fn inferred_slot(core: &Core, known: &Known, node: &Node) -> Option<(usize, (u32, Cap))>
    ensures { result ≡ inference.inferred_slot core.now known.now node.now node.now.kind }
{
    let slot = node.kind.defined_slot()?;
    slot_type(core, known, node, slot)
}

// If the node defines a slot without a written type, gives the slot the type that follows.
fn infer_slot(core: &Core, known: &mut Known, node: &Node)
    requires { length known.old.slots ≡ length core.now.slots }
    ensures { known.new ≡ inference.with_inferred core.now known.old node.now }
{
    match inferred_slot(core, known, node) {
        None => {}
        Some((place, ty)) => known.replace(place, ty),
    }
}

// The types after these nodes.
#[tactic(auto, using(crate::proofs::Lengths::same_length))]
fn infer_slots(core: &Core, known: &mut Known, nodes: &[Node])
    requires { length known.old.slots ≡ length core.now.slots }
    ensures { known.new ≡ spec.with_inferred_slots core.now known.old nodes.now }
{
    for node in nodes {
        infer_slot(core, known, node);
    }
}

/// The first `count` nodes.
pub(crate) fn first_nodes(nodes: &[Node], count: usize) -> &[Node]
    ensures { result.now ≡ take count nodes.now }
{
    &nodes[..count.min(nodes.len())]
}

/// The written types, and those that follow from the definitions among the first nodes, which have these notes.
pub(crate) fn known_slots(
    alloc: Global,
    core: &Core,
    notes: &[Note],
) -> Result<List<(u32, Cap)>, AllocError>
    ensures { IfOk result (λ slots. slots ≡ spec.known_slots core.now notes.now (length notes.now)) }
{
    let types = first_types(alloc, core)?;
    let mut known = Known::new(List::from_vec(types), notes);
    infer_slots(core, &mut known, first_nodes(core.nodes(), notes.len()));
    Ok(known.into_slots())
}

/// The types of an annotation's slots, with that of the slot that the node defines.
pub(crate) fn with_node(
    alloc: Global,
    core: &Core,
    ann: &Ann,
    node: &Node,
) -> Result<List<(u32, Cap)>, AllocError>
    requires { length ann.now.slots ≡ length core.now.slots }
    ensures { IfOk result (λ slots. slots ≡ (inference.with_inferred core.now ann.now node.now).slots) }
{
    let types = List::from_slice(alloc, ann.slots.as_slice())?;
    let mut known = Known::new(types, ann.notes.as_slice());
    infer_slot(core, &mut known, node);
    Ok(known.into_slots())
}
