//! What the rules are about: slots, masks, the notes of children and their types.
ghost use Rattle.std.specs.Prelude.{◌≡◌, length, slice_get};
ghost use Rattle.pc_masks.specs.Masks.{first};
ghost use Rattle.pc_valid.specs.Words.{masks_after as after_of};
ghost use Rattle.pc_rules.specs.Parts as spec;

use crate::children::Children;
use crate::said::Said;
use pc_ann::{Ann, Note};
use pc_base::FIELD_LIMIT;
use pc_caps::{Cap, Form, below, fits, sendable};
use pc_core::{Core, EntityDef, MethodKind, Node, Slot};
use pc_masks::Mask;
use pc_sub::is_sub;

// The conclusion of a rule: this type, or none, and these masks.
pub(crate) fn says_of(ty: Option<(u32, Form)>, masks: (Mask, Mask)) -> Said
    ensures { result ≡ spec.says_of ty masks }
{
    Said {
        ty,
        live: masks.0,
        set: masks.1,
    }
}

// Whether a value of this form may be read.
pub(crate) fn readable(form: Form) -> bool
    ensures { result ≡ spec.readable form }
{
    below(form, Form::Box)
}

// Whether a value goes to a place of this entity and capability.
pub(crate) fn goes_to(core: &Core, value: (u32, Form), place: (u32, Cap)) -> bool
    ensures { result ≡ spec.goes_to core.now value place }
{
    is_sub(core, value.0, place.0) && fits(value.1, place.1)
}

// Whether a type is below another in entity and form.
pub(crate) fn lower(core: &Core, one: (u32, Form), other: (u32, Form)) -> bool
    ensures { result ≡ spec.lower core.now one other }
{
    is_sub(core, one.0, other.0) && below(one.1, other.1)
}

// Whether a value is a readable one of this entity.
pub(crate) fn reads_as(entity: u32, value: (u32, Form)) -> bool
    ensures { result ≡ spec.reads_as entity value }
{
    value.0 == entity && readable(value.1)
}

// A slot of a method by its index, with its type.
pub(crate) fn slot_of(
    core: &Core,
    slots: &[(u32, Cap)],
    method: u32,
    slot: u32,
) -> Option<(Slot, (u32, Cap))>
    ensures { result ≡ spec.slot_of core.now slots.now method slot }
{
    let method = core.method_at(method)?;
    let declared = core.slot_at(method, slot)?;
    let ty = slots.get(method.first_slot as usize + slot as usize)?;
    Some((*declared, *ty))
}

// Whether a slot is reachable from a node.
pub(crate) fn reachable(node: &Node, slot: (Slot, (u32, Cap))) -> bool
    ensures { result ≡ spec.reachable node.now slot }
{
    slot.0.depth == node.depth || sendable(slot.1.1)
}

/// Whether a method of this kind is a constructor. Does not allocate.
pub fn constructs(kind: MethodKind) -> bool
    ensures { result ≡ spec.constructs kind }
{
    matches!(kind, MethodKind::New | MethodKind::Spawn)
}

// The set of all fields of an entity.
pub(crate) fn all_fields(core: &Core, entity: u32) -> Mask
    ensures { result ≡ spec.all_fields core.now entity }
{
    match core.entity_at(entity) {
        None => Mask::first(0),
        Some(found) => all_of(found),
    }
}

// The set of this entity's fields.
fn all_of(entity: &EntityDef) -> Mask
    ensures { result ≡ first (length entity.now.fields) }
{
    let count = entity.fields.len();
    if count < FIELD_LIMIT as usize {
        Mask::first(count as u32)
    } else {
        Mask::first(FIELD_LIMIT)
    }
}

/// Whether a set mask contains all fields of the entity. Does not allocate.
pub fn full(core: &Core, entity: u32, set: Mask) -> bool
    ensures { result ≡ spec.full core.now entity set }
{
    all_fields(core, entity).is_within(set)
}

// Whether a node with this note starts from these masks.
pub(crate) fn starts(note: Note, masks: (Mask, Mask)) -> bool
    ensures { result ≡ spec.starts note masks }
{
    note.live_before == masks.0 && note.set_before == masks.1
}

// The note of a node.
pub(crate) fn note_at(ann: &Ann, node: u32) -> Option<Note>
    ensures { result ≡ slice_get ann.now.notes node }
{
    ann.notes.get(node as usize).copied()
}

// The masks after nodes with these notes, evaluated one after the other from these masks on.
pub(crate) fn through_notes(children: &Children, masks: (Mask, Mask)) -> Option<(Mask, Mask)>
    ensures { result ≡ spec.through_notes children.now masks }
{
    let mut reached = masks;
    for index in 0..children.count() {
        let note = children.note(index)?;
        if !starts(note, reached) {
            return None;
        }
        reached = (note.live_after, note.set_after);
    }
    Some(reached)
}

// The masks after a node with this note.
pub(crate) fn after(note: Note) -> (Mask, Mask)
    ensures { result ≡ after_of note }
{
    (note.live_after, note.set_after)
}

pub(crate) fn one_note(children: &Children) -> Option<Note>
    ensures { result ≡ spec.one_note children.now }
{
    if children.count() == 1 {
        children.note(0)
    } else {
        None
    }
}

pub(crate) fn two_notes(children: &Children) -> Option<(Note, Note)>
    ensures { result ≡ spec.two_notes children.now }
{
    if children.count() == 2 {
        let first = children.note(0)?;
        let second = children.note(1)?;
        Some((first, second))
    } else {
        None
    }
}

pub(crate) fn three_notes(children: &Children) -> Option<(Note, Note, Note)>
    ensures { result ≡ spec.three_notes children.now }
{
    if children.count() == 3 {
        let first = children.note(0)?;
        let second = children.note(1)?;
        let third = children.note(2)?;
        Some((first, second, third))
    } else {
        None
    }
}

pub(crate) fn last_note(children: &Children) -> Option<Note>
    ensures { result ≡ spec.last_note children.now }
{
    let count = children.count();
    if count == 0 {
        return None;
    }
    children.note(count - 1)
}

// The type of an only child.
pub(crate) fn one_type(children: &Children) -> Option<(u32, Form)>
    ensures { result ≡ spec.one_type children.now }
{
    let note = one_note(children)?;
    note.ty
}

fn types_of(notes: (Note, Note)) -> Option<((u32, Form), (u32, Form))>
    ensures { result ≡ spec.types_of notes }
{
    let a = notes.0.ty?;
    let b = notes.1.ty?;
    Some((a, b))
}

// The types of two children.
pub(crate) fn two_types(children: &Children) -> Option<((u32, Form), (u32, Form))>
    ensures { result ≡ spec.two_types children.now }
{
    let notes = two_notes(children)?;
    types_of(notes)
}

pub(crate) fn last_child(children: &[u32]) -> Option<u32>
    ensures { result ≡ spec.last_child children.now }
{
    let count = children.len();
    if count == 0 {
        return None;
    }
    children.get(count - 1).copied()
}
