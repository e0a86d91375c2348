//! Rules for literals, `this`, locals and their definitions.
ghost use Rattle.std.specs.Prelude.{◌≡◌};
ghost use Rattle.pc_rules.specs.Values as spec;

use crate::children::Children;
use crate::parts::{full, goes_to, one_type, reachable, says_of, slot_of, through_notes};
use crate::said::Said;
use pc_caps::{Cap, Form, plain, stored, unalias};
use pc_core::{Core, Node, Slot, SlotKind};
use pc_masks::Mask;

// A literal of this entity.
pub(crate) fn literal_says(entity: u32, masks: (Mask, Mask)) -> Option<Said>
    ensures { result ≡ spec.literal_says entity masks }
{
    Some(says_of(Some((entity, Form::Val)), masks))
}

// The form of `this`.
fn this_form(core: &Core, node: &Node, entity: u32, slot: (Slot, (u32, Cap)), set: Mask) -> Form
    ensures { result ≡ spec.this_form core.now node.now entity slot set }
{
    if full(core, entity, set) && reachable(node, slot) {
        plain(slot.1.1)
    } else {
        Form::Tag
    }
}

// `this`.
pub(crate) fn this_says(
    core: &Core,
    slots: &[(u32, Cap)],
    node: &Node,
    masks: (Mask, Mask),
) -> Option<Said>
    ensures { result ≡ spec.this_says core.now slots.now node.now masks }
{
    let method = core.method_at(node.method)?;
    let slot = slot_of(core, slots, node.method, 0)?;
    let form = this_form(core, node, method.entity, slot, masks.1);
    Some(says_of(Some((method.entity, form)), masks))
}

// The type of a live and reachable slot.
fn used(core: &Core, slots: &[(u32, Cap)], node: &Node, slot: u32, live: Mask) -> Option<(u32, Cap)>
    ensures { result ≡ spec.used core.now slots.now node.now slot live }
{
    let found = slot_of(core, slots, node.method, slot)?;
    if live.has(slot) && reachable(node, found) {
        Some(found.1)
    } else {
        None
    }
}

// A local or parameter.
pub(crate) fn local_says(
    core: &Core,
    slots: &[(u32, Cap)],
    node: &Node,
    slot: u32,
    masks: (Mask, Mask),
) -> Option<Said>
    ensures { result ≡ spec.local_says core.now slots.now node.now slot masks }
{
    let ty = used(core, slots, node, slot, masks.0)?;
    Some(says_of(Some((ty.0, plain(ty.1))), masks))
}

// `consume` of a local or parameter.
pub(crate) fn consume_says(
    core: &Core,
    slots: &[(u32, Cap)],
    node: &Node,
    slot: u32,
    masks: (Mask, Mask),
) -> Option<Said>
    ensures { result ≡ spec.consume_says core.now slots.now node.now slot masks }
{
    let ty = used(core, slots, node, slot, masks.0)?;
    Some(says_of(
        Some((ty.0, unalias(ty.1))),
        (masks.0.without(slot), masks.1),
    ))
}

// The type given to a slot by its definition.
fn defined_type(written: Option<(u32, Cap)>, value: (u32, Form)) -> (u32, Cap)
    ensures { result ≡ spec.defined_type written value }
{
    match written {
        Some(written) => written,
        None => (value.0, stored(value.1)),
    }
}

fn same_cap(one: Cap, other: Cap) -> bool
    ensures { result ≡ spec.same_cap one other }
{
    match (one, other) {
        (Cap::Iso, Cap::Iso) => true,
        (Cap::Trn, Cap::Trn) => true,
        (Cap::Ref, Cap::Ref) => true,
        (Cap::Val, Cap::Val) => true,
        (Cap::Box, Cap::Box) => true,
        (Cap::Tag, Cap::Tag) => true,
        (Cap::Iso | Cap::Trn | Cap::Ref | Cap::Val | Cap::Box | Cap::Tag, _) => false,
    }
}

fn same_place(one: (u32, Cap), other: (u32, Cap)) -> bool
    ensures { result ≡ spec.same_place one other }
{
    one.0 == other.0 && same_cap(one.1, other.1)
}

// Whether the slot has the type of its definition, and the value goes to it.
fn defines(core: &Core, slot: (Slot, (u32, Cap)), value: (u32, Form)) -> bool
    ensures { result ≡ spec.defines core.now slot value }
{
    same_place(slot.1, defined_type(slot.0.written, value)) && goes_to(core, value, slot.1)
}

fn defined(children: &Children, slot: u32, masks: (Mask, Mask)) -> Option<Said>
    ensures { result ≡ spec.defined children.now slot masks }
{
    let reached = through_notes(children, masks)?;
    Some(says_of(None, (reached.0.with(slot), reached.1)))
}

// The definition of a local.
pub(crate) fn define_says(
    core: &Core,
    slots: &[(u32, Cap)],
    children: &Children,
    node: &Node,
    slot: u32,
    masks: (Mask, Mask),
) -> Option<Said>
    ensures { result ≡ spec.define_says core.now slots.now children.now node.now slot masks }
{
    let value = one_type(children)?;
    let found = slot_of(core, slots, node.method, slot)?;
    if defines(core, found, value) {
        defined(children, slot, masks)
    } else {
        None
    }
}

// The old value of a slot, if there is one.
fn old_value(slot: u32, ty: (u32, Cap), live: Mask) -> Option<(u32, Form)>
    ensures { result ≡ spec.old_value slot ty live }
{
    if live.has(slot) {
        Some((ty.0, unalias(ty.1)))
    } else {
        None
    }
}

fn assigned(children: &Children, slot: u32, ty: (u32, Cap), masks: (Mask, Mask)) -> Option<Said>
    ensures { result ≡ spec.assigned children.now slot ty masks }
{
    let reached = through_notes(children, masks)?;
    Some(says_of(
        old_value(slot, ty, reached.0),
        (reached.0.with(slot), reached.1),
    ))
}

fn is_var(kind: SlotKind) -> bool
    ensures { result ≡ spec.is_var kind }
{
    matches!(kind, SlotKind::Var)
}

// Whether the slot may be assigned here, and the value goes to it.
fn assigns(core: &Core, node: &Node, slot: (Slot, (u32, Cap)), value: (u32, Form)) -> bool
    ensures { result ≡ spec.assigns core.now node.now slot value }
{
    is_var(slot.0.kind) && reachable(node, slot) && goes_to(core, value, slot.1)
}

// Assigning to a local or parameter.
pub(crate) fn assign_says(
    core: &Core,
    slots: &[(u32, Cap)],
    children: &Children,
    node: &Node,
    slot: u32,
    masks: (Mask, Mask),
) -> Option<Said>
    ensures { result ≡ spec.assign_says core.now slots.now children.now node.now slot masks }
{
    let value = one_type(children)?;
    let found = slot_of(core, slots, node.method, slot)?;
    if assigns(core, node, found, value) {
        assigned(children, slot, found.1, masks)
    } else {
        None
    }
}
