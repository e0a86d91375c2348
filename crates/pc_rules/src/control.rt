//! Rules for sequences, branches, loops, recover and bodies.
ghost use Rattle.std.specs.Prelude.{◌≡◌, slice_get, length, ◌+◌};
ghost use Rattle.pc_masks.specs.Masks.{first};
ghost use Rattle.pc_rules.specs.Control as spec;

use crate::children::Children;
use crate::operators::meet_masks;
use crate::parts::{
    after, all_fields, constructs, last_note, lower, one_note, one_type, reads_as, says_of, starts,
    three_notes, through_notes, two_notes,
};
use crate::said::Said;
use pc_ann::Note;
use pc_base::SLOT_LIMIT;
use pc_caps::{Cap, Form, fits, lift, unalias};
use pc_core::{Core, Method, MethodKind, Node, NodeKind};
use pc_masks::Mask;
use pc_tree::{BOOL_ENTITY, NONE_ENTITY};

// The live mask without the slot that a node defines.
fn without_definition(kind: &NodeKind, live: Mask) -> Mask
    ensures { result ≡ spec.without_definition kind.now live }
{
    match kind.defined_slot() {
        None => live,
        Some(slot) => live.without(slot),
    }
}

fn without_item(core: &Core, item: u32, live: Mask) -> Mask
    ensures { result ≡ spec.without_item (slice_get core.now.nodes item) live }
{
    match core.node_at(item) {
        None => live,
        Some(node) => without_definition(&node.kind, live),
    }
}

// The live mask without the slots that the items of a sequence define.
fn without_items(core: &Core, items: &[u32], live: Mask) -> Mask
    ensures { result ≡ spec.without_items core.now items.now live }
{
    let mut left = live;
    for item in items {
        left = without_item(core, *item, left);
    }
    left
}

// A sequence.
pub(crate) fn seq_says(
    core: &Core,
    children: &Children,
    node: &Node,
    masks: (Mask, Mask),
) -> Option<Said>
    ensures { result ≡ spec.seq_says core.now children.now node.now masks }
{
    let items = node.children.as_slice();
    let note = last_note(children)?;
    let reached = through_notes(children, masks)?;
    Some(says_of(note.ty, (without_items(core, items, reached.0), reached.1)))
}

// The type of two branches.
fn joined(core: &Core, one: Option<(u32, Form)>, other: Option<(u32, Form)>) -> Option<(u32, Form)>
    ensures { result ≡ spec.joined core.now one other }
{
    match (one, other) {
        (Some(first), Some(second)) => joined_types(core, first, second),
        (_, _) => None,
    }
}

fn joined_types(core: &Core, one: (u32, Form), other: (u32, Form)) -> Option<(u32, Form)>
    ensures { result ≡ spec.joined_types core.now one other }
{
    if lower(core, one, other) {
        Some(other)
    } else if lower(core, other, one) {
        Some(one)
    } else {
        None
    }
}

// The masks after a branch, whichever way is taken.
fn branch_masks(children: (Note, Note, Note), masks: (Mask, Mask)) -> Option<(Mask, Mask)>
    ensures { result ≡ spec.branch_masks children masks }
{
    let tested = after(children.0);
    if starts(children.0, masks) && starts(children.1, tested) && starts(children.2, tested) {
        Some(meet_masks(after(children.1), after(children.2)))
    } else {
        None
    }
}

// Whether a value of this type decides a branch.
fn is_condition(ty: Option<(u32, Form)>) -> bool
    ensures { result ≡ spec.is_condition ty }
{
    match ty {
        None => false,
        Some(ty) => reads_as(BOOL_ENTITY, ty),
    }
}

// `if`.
pub(crate) fn if_says(core: &Core, children: &Children, masks: (Mask, Mask)) -> Option<Said>
    ensures { result ≡ spec.if_says core.now children.now masks }
{
    let notes = three_notes(children)?;
    let reached = branch_masks(notes, masks)?;
    if is_condition(notes.0.ty) {
        Some(says_of(joined(core, notes.1.ty, notes.2.ty), reached))
    } else {
        None
    }
}

// The masks after a loop.
fn loop_masks(children: (Note, Note), masks: (Mask, Mask)) -> Option<(Mask, Mask)>
    ensures { result ≡ spec.loop_masks children masks }
{
    let tested = after(children.0);
    let looped = after(children.1);
    if (starts(children.0, masks) && starts(children.1, tested))
        && (masks.0.is_within(looped.0) && looped.1 == masks.1)
    {
        Some(tested)
    } else {
        None
    }
}

// `while`.
pub(crate) fn while_says(children: &Children, masks: (Mask, Mask)) -> Option<Said>
    ensures { result ≡ spec.while_says children.now masks }
{
    let notes = two_notes(children)?;
    let reached = loop_masks(notes, masks)?;
    if is_condition(notes.0.ty) {
        Some(says_of(Some((NONE_ENTITY, Form::Val)), reached))
    } else {
        None
    }
}

// The form of a recover's value.
fn recovered(written: Option<Cap>, body: Form) -> Option<Form>
    ensures { result ≡ spec.recovered written body }
{
    match written {
        None => Some(lift(body)),
        Some(cap) if fits(lift(body), cap) => Some(unalias(cap)),
        Some(_) => None,
    }
}

// `recover`.
pub(crate) fn recover_says(
    children: &Children,
    written: Option<Cap>,
    masks: (Mask, Mask),
) -> Option<Said>
    ensures { result ≡ spec.recover_says children.now written masks }
{
    let body = one_type(children)?;
    let form = recovered(written, body.1)?;
    let reached = through_notes(children, masks)?;
    Some(says_of(Some((body.0, form)), reached))
}

/// The set fields with which a method starts: none in a constructor, and all elsewhere. Does not allocate.
pub fn start_set(core: &Core, method: &Method) -> Mask
    ensures { result ≡ spec.start_set core.now method.now }
{
    if constructs(method.kind) {
        Mask::first(0)
    } else {
        all_fields(core, method.entity)
    }
}

/// The live slots with which a method starts: `this` and the parameters. Does not allocate.
pub fn start_live(method: &Method) -> Mask
    ensures { result ≡ first (1 + length method.now.params) }
{
    let count = method.params.len();
    if count < SLOT_LIMIT as usize {
        Mask::first(count as u32 + 1)
    } else {
        Mask::first(SLOT_LIMIT)
    }
}

fn starts_method(core: &Core, method: &Method, masks: (Mask, Mask)) -> bool
    ensures { result ≡ spec.starts_method core.now method.now masks }
{
    masks.0 == start_live(method) && masks.1 == start_set(core, method)
}

fn gives(core: &Core, result_type: (u32, Form), value: Option<(u32, Form)>) -> bool
    ensures { result ≡ spec.gives_result core.now result_type value }
{
    match value {
        None => false,
        Some(value) => lower(core, value, result_type),
    }
}

// Whether a function's value is below its result.
fn result_ok(
    core: &Core,
    kind: MethodKind,
    result_type: (u32, Form),
    value: Option<(u32, Form)>,
) -> bool
    ensures { result ≡ spec.result_ok core.now kind result_type value }
{
    match kind {
        MethodKind::Fun => gives(core, result_type, value),
        MethodKind::Be | MethodKind::New | MethodKind::Spawn => true,
    }
}

// The body of a method.
pub(crate) fn body_says(
    core: &Core,
    children: &Children,
    node: &Node,
    masks: (Mask, Mask),
) -> Option<Said>
    ensures { result ≡ spec.body_says core.now children.now node.now masks }
{
    let method = core.method_at(node.method)?;
    let note = one_note(children)?;
    let reached = through_notes(children, masks)?;
    if starts_method(core, method, masks) && result_ok(core, method.kind, method.result, note.ty) {
        Some(says_of(None, reached))
    } else {
        None
    }
}
