//! Whether a condition holds.
ghost use Rattle.std.specs.Prelude.{◌≡◌};
ghost use Rattle.pc_masks.specs.Masks.{within, same};
ghost use Rattle.pc_caps.specs.Computed.{may_write as may_write_is};
ghost use Rattle.pc_rules.specs.Calls as calls;
ghost use Rattle.pc_rules.specs.Control.{recovered as recovered_is};
ghost use Rattle.pc_rules.specs.Parts as parts;
ghost use Rattle.pc_explain_conditions.specs.Failing as spec;

use crate::children::{callee, note_at, through_children, type_at};
use crate::chosen::{is_behaviour, is_function};
use crate::condition::Condition;
use crate::fields::{child_field, own_field};
use crate::site::Site;
use crate::slots::{is_var, reachable, slot_of};
use pc_ann::Note;
use pc_caps::{Cap, Form, below, fits, lift, may_write, sendable, sendable_form, taken, view};
use pc_core::Slot;
use pc_masks::Mask;
use pc_sub::is_sub;

// Whether a value of this form may be read.
fn readable(form: Form) -> bool
    ensures { result ≡ parts.readable form }
{
    below(form, Form::Box)
}

fn is_printable(ty: (u32, Form)) -> bool
    ensures { result ≡ spec.is_printable ty }
{
    ty.0 == 1 || ty.0 == 2
}

fn is_comparable(ty: (u32, Form)) -> bool
    ensures { result ≡ spec.is_comparable ty }
{
    ty.0 == 1 || ty.0 == 2 || ty.0 == 3
}

fn is_isolated(form: Form) -> bool
    ensures { result ≡ calls.is_isolated form }
{
    matches!(form, Form::Iso | Form::Trn)
}

fn is_lent(cap: Cap) -> bool
    ensures { result ≡ calls.is_lent cap }
{
    matches!(cap, Cap::Ref | Cap::Box)
}

// Whether a recover with this body gives a value.
fn is_lifted(written: Option<Cap>, body: Form) -> bool
    ensures { result ≡ spec.is_found (recovered_is written body) }
{
    match written {
        None => true,
        Some(cap) => fits(lift(body), cap),
    }
}

// Whether the value may be written into such a field of the origin.
fn is_written(value: Option<(u32, Form)>, origin: Option<(u32, Form)>, cap: Cap) -> bool
    ensures { result ≡ spec.on value (λ v. spec.on origin (λ o. may_write_is o.1 v.1 cap)) }
{
    match (value, origin) {
        (Some(value), Some(origin)) => may_write(origin.1, value.1, cap),
        (_, _) => false,
    }
}

// Whether a loop's body keeps these slots live.
fn keeps_live(body: Option<Note>, live: Mask) -> bool
    ensures { result ≡ spec.on body (λ t. within live t.live_after) }
{
    match body {
        None => false,
        Some(note) => live.is_within(note.live_after),
    }
}

// Whether a loop's body ends with these set fields.
fn keeps_set(body: Option<Note>, set: Mask) -> bool
    ensures { result ≡ spec.on body (λ t. same t.set_after set) }
{
    match body {
        None => false,
        Some(note) => note.set_after == set,
    }
}

// A slot of the node's method, with its type.
fn slot_in(site: &Site, slot: u32) -> Option<(Slot, (u32, Cap))>
    ensures { result ≡ parts.slot_of site.now.core.now site.now.slots.now site.now.node.now.method slot }
{
    slot_of(site.core, site.slots, site.node.method, slot)
}

/// Whether the condition holds for the node.
pub(crate) fn holds(site: &Site, condition: Condition) -> bool
    ensures { result ≡ spec.holds_of site.now.core.now site.now.slots.now site.now.children.now site.now.node.now (site.now.live, site.now.set) condition }
{
    let core = site.core;
    let children = site.children;
    let before = (site.live, site.set);
    match condition {
        Condition::Typed(child) => type_at(children, child).is_some(),
        Condition::Under(child, above) => {
            type_at(children, child).is_some_and(|ty| is_sub(core, ty.0, above))
        }
        Condition::Fits(child, cap) => type_at(children, child).is_some_and(|ty| fits(ty.1, cap)),
        Condition::Below(child, form) => {
            type_at(children, child).is_some_and(|ty| below(ty.1, form))
        }
        Condition::IsA(child, entity) => type_at(children, child).is_some_and(|ty| ty.0 == entity),
        Condition::Comparable(child) => type_at(children, child).is_some_and(is_comparable),
        Condition::Printable(child) => type_at(children, child).is_some_and(is_printable),
        Condition::Readable(child) => type_at(children, child).is_some_and(|ty| readable(ty.1)),
        Condition::Live(slot) => site.live.has(slot),
        Condition::Reached(slot) => slot_in(site, slot).is_some_and(|found| reachable(
            site.node, found,
        )),
        Condition::Variable(slot) => slot_in(site, slot).is_some_and(|found| is_var(found.0.kind)),
        Condition::HasField(child, name) => child_field(core, children, child, name).is_some(),
        Condition::HasOwnField(name) => own_field(core, site.node, name).is_some(),
        Condition::Seen(child, cap) => {
            type_at(children, child).is_some_and(|ty| view(ty.1, cap).is_some())
        }
        Condition::NotFixed(fixed) => !fixed,
        Condition::Writable(child, cap) => {
            type_at(children, child).is_some_and(|ty| taken(ty.1, cap).is_some())
        }
        Condition::Enters(cap) => is_written(type_at(children, 0), type_at(children, 1), cap),
        Condition::Set(field) => {
            through_children(children, before).is_some_and(|after| after.1.has(field))
        }
        Condition::SetOnce(fixed, field) => {
            through_children(children, before).is_some_and(|after| !fixed || !after.1.has(field))
        }
        Condition::HasMethod(name) => callee(core, children, name).is_some(),
        Condition::Function(kind) => is_function(kind),
        Condition::Behaviour(kind) => is_behaviour(kind),
        Condition::Counted(arguments, parameters) => arguments == parameters,
        Condition::Unfit(child, cap) => type_at(children, child).is_some_and(|ty| !fits(ty.1, cap)),
        Condition::Isolated(child) => type_at(children, child).is_some_and(|ty| is_isolated(ty.1)),
        Condition::Lent(cap) => is_lent(cap),
        Condition::Sent(child, cap) => {
            type_at(children, child).is_some_and(|ty| sendable_form(ty.1) || sendable(cap))
        }
        Condition::KeepsLive => keeps_live(note_at(children, 1), site.live),
        Condition::KeepsSet => keeps_set(note_at(children, 1), site.set),
        Condition::Lifted(written) => {
            type_at(children, 0).is_some_and(|ty| is_lifted(written, ty.1))
        }
    }
}
