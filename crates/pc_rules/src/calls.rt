//! Rules for constructors, calls and messages.
ghost use Rattle.std.specs.Prelude.{◌≡◌, ◌≤◌, length, take};
ghost use Rattle.pc_rules.specs.Calls as spec;
ghost use Rattle.pc_rules.specs.Children.{type_at as type_is, goes_at as goes_is, sendable_at as sendable_is};

use crate::children::Children;
use crate::parts::{goes_to, last_note, one_type, reads_as, says_of, through_notes};
use crate::said::Said;
use pc_caps::{Cap, Form, fits, sendable, sendable_form};
use pc_core::{Core, Method, MethodKind, ParamInfo};
use pc_masks::Mask;
use pc_tree::{BOOL_ENTITY, NONE_ENTITY, STRING_ENTITY, U64_ENTITY};

// Whether an argument of this type goes to the parameter.
fn argument_goes(core: &Core, param: ParamInfo, argument: Option<(u32, Form)>) -> bool
    ensures { result ≡ spec.argument_goes core.now param argument }
{
    match argument {
        None => false,
        Some(value) => goes_to(core, value, (param.entity, param.cap)),
    }
}

// The type of the child with this index.
fn type_at(children: &Children, index: usize) -> Option<(u32, Form)>
    ensures { result ≡ type_is children.now index }
{
    let note = children.note(index)?;
    note.ty
}

// Whether the child with this index goes to the parameter with this index.
fn goes_at(core: &Core, children: &Children, params: &[ParamInfo], index: usize) -> bool
    ensures { result ≡ goes_is core.now children.now params.now index }
{
    match params.get(index) {
        None => false,
        Some(param) => argument_goes(core, *param, type_at(children, index)),
    }
}

// Whether there are as many of the first `count` children as parameters, and each goes to its parameter.
fn arguments_go(core: &Core, children: &Children, count: usize, params: &[ParamInfo]) -> bool
    requires { count ≤ length children.now }
    ensures { result ≡ spec.arguments_go core.now (take count children.now) params.now }
{
    if params.len() != count {
        return false;
    }
    for index in 0..count {
        if !goes_at(core, children, params, index) {
            return false;
        }
    }
    true
}

// Whether there are as many children as parameters, and each goes to its parameter.
fn all_go(core: &Core, children: &Children, params: &[ParamInfo]) -> bool
    ensures { result ≡ spec.arguments_go core.now children.now params.now }
{
    arguments_go(core, children, children.count(), params)
}

// The same for the arguments of a call: all its children except the last one, which is the receiver.
fn given_go(core: &Core, children: &Children, params: &[ParamInfo]) -> bool
    ensures { result ≡ spec.arguments_go core.now (spec.arguments children.now) params.now }
{
    arguments_go(core, children, children.count().saturating_sub(1), params)
}

// Constructing an object of a class.
pub(crate) fn new_says(
    core: &Core,
    children: &Children,
    method: u32,
    masks: (Mask, Mask),
) -> Option<Said>
    ensures { result ≡ spec.new_says core.now children.now method masks }
{
    let found = core.method_at(method)?;
    let reached = through_notes(children, masks)?;
    if all_go(core, children, found.params.as_slice()) {
        Some(says_of(Some(found.result), reached))
    } else {
        None
    }
}

// Constructing an actor.
pub(crate) fn spawn_says(
    core: &Core,
    children: &Children,
    method: u32,
    masks: (Mask, Mask),
) -> Option<Said>
    ensures { result ≡ spec.spawn_says core.now children.now method masks }
{
    let found = core.method_at(method)?;
    let reached = through_notes(children, masks)?;
    if all_go(core, children, found.params.as_slice()) {
        Some(says_of(Some((found.entity, Form::Tag)), reached))
    } else {
        None
    }
}

// Whether the argument has a sendable form, or goes to a sendable parameter.
fn argument_sendable(param: ParamInfo, argument: Option<(u32, Form)>) -> bool
    ensures { result ≡ spec.argument_sendable param argument }
{
    match argument {
        None => false,
        Some(value) => sendable_form(value.1) || sendable(param.cap),
    }
}

// The same for the child and the parameter with this index.
fn sendable_at(children: &Children, params: &[ParamInfo], index: usize) -> bool
    ensures { result ≡ sendable_is children.now params.now index }
{
    match params.get(index) {
        None => false,
        Some(param) => argument_sendable(*param, type_at(children, index)),
    }
}

// Whether there are as many of the first `count` children as parameters, and each may be sent.
fn arguments_sendable(children: &Children, count: usize, params: &[ParamInfo]) -> bool
    requires { count ≤ length children.now }
    ensures { result ≡ spec.arguments_sendable (take count children.now) params.now }
{
    if params.len() != count {
        return false;
    }
    for index in 0..count {
        if !sendable_at(children, params, index) {
            return false;
        }
    }
    true
}

fn given_sendable(children: &Children, params: &[ParamInfo]) -> bool
    ensures { result ≡ spec.arguments_sendable (spec.arguments children.now) params.now }
{
    arguments_sendable(children, children.count().saturating_sub(1), params)
}

// The type of a call's receiver, and the number of the method with this name of its entity.
fn called(core: &Core, children: &Children, name: u32) -> Option<((u32, Form), u32)>
    ensures { result ≡ spec.called core.now children.now name }
{
    let receiver = last_note(children)?;
    let origin = receiver.ty?;
    let method = core.method(origin.0, name)?;
    Some((origin, method))
}

fn is_function(kind: MethodKind) -> bool
    ensures { result ≡ spec.is_function kind }
{
    matches!(kind, MethodKind::Fun)
}

fn is_behaviour(kind: MethodKind) -> bool
    ensures { result ≡ spec.is_behaviour kind }
{
    matches!(kind, MethodKind::Be)
}

// Whether the method is a function, the arguments go to the parameters, and the receiver fits.
fn calls(core: &Core, children: &Children, receiver: (u32, Form), method: &Method) -> bool
    ensures { result ≡ spec.calls core.now children.now receiver method.now }
{
    is_function(method.kind)
        && given_go(core, children, method.params.as_slice())
        && fits(receiver.1, method.receiver)
}

// Calling a method.
pub(crate) fn call_says(
    core: &Core,
    children: &Children,
    name: u32,
    masks: (Mask, Mask),
) -> Option<Said>
    ensures { result ≡ spec.call_says core.now children.now name masks }
{
    let found = called(core, children, name)?;
    let method = core.method_at(found.1)?;
    let reached = through_notes(children, masks)?;
    if calls(core, children, found.0, method) {
        Some(says_of(Some(method.result), reached))
    } else {
        None
    }
}

fn is_isolated(form: Form) -> bool
    ensures { result ≡ spec.is_isolated form }
{
    matches!(form, Form::Iso | Form::Trn)
}

fn is_lent(cap: Cap) -> bool
    ensures { result ≡ spec.is_lent cap }
{
    matches!(cap, Cap::Ref | Cap::Box)
}

// Whether a receiver of this form does not fit, but may be lent to the method.
fn lends(receiver: Form, cap: Cap) -> bool
    ensures { result ≡ spec.lends receiver cap }
{
    !fits(receiver, cap) && is_isolated(receiver) && is_lent(cap)
}

// Whether the method is a function to which the receiver may be lent.
fn recovers(core: &Core, children: &Children, receiver: (u32, Form), method: &Method) -> bool
    ensures { result ≡ spec.recovers core.now children.now receiver method.now }
{
    let params = method.params.as_slice();
    (is_function(method.kind) && given_go(core, children, params))
        && (lends(receiver.1, method.receiver) && given_sendable(children, params))
}

fn recovered_result(ty: (u32, Form)) -> Option<(u32, Form)>
    ensures { result ≡ spec.recovered_result ty }
{
    if sendable_form(ty.1) { Some(ty) } else { None }
}

// Calling a method on a receiver that is lent to it.
pub(crate) fn callrecover_says(
    core: &Core,
    children: &Children,
    name: u32,
    masks: (Mask, Mask),
) -> Option<Said>
    ensures { result ≡ spec.callrecover_says core.now children.now name masks }
{
    let found = called(core, children, name)?;
    let method = core.method_at(found.1)?;
    let reached = through_notes(children, masks)?;
    if recovers(core, children, found.0, method) {
        Some(says_of(recovered_result(method.result), reached))
    } else {
        None
    }
}

// Whether the method is a behaviour, and the arguments go to the parameters.
fn sends(core: &Core, children: &Children, method: &Method) -> bool
    ensures { result ≡ spec.sends core.now children.now method.now }
{
    is_behaviour(method.kind) && given_go(core, children, method.params.as_slice())
}

// Sending a message to an actor.
pub(crate) fn send_says(
    core: &Core,
    children: &Children,
    name: u32,
    masks: (Mask, Mask),
) -> Option<Said>
    ensures { result ≡ spec.send_says core.now children.now name masks }
{
    let found = called(core, children, name)?;
    let method = core.method_at(found.1)?;
    let reached = through_notes(children, masks)?;
    if sends(core, children, method) {
        Some(says_of(Some((NONE_ENTITY, Form::Val)), reached))
    } else {
        None
    }
}

// A number or a truth value that may be read.
fn has_text(ty: (u32, Form)) -> bool
    ensures { result ≡ spec.has_text ty }
{
    reads_as(U64_ENTITY, ty) || reads_as(BOOL_ENTITY, ty)
}

// Whether two texts are equal.
fn same_text(one: &[u8], other: &[u8]) -> bool
    ensures { result ≡ spec.same_text one.now other.now }
{
    let mut left = other;
    for byte in one {
        match left {
            [] => return false,
            [first, others @ ..] => {
                if *byte != *first {
                    return false;
                }
                left = others;
            }
        }
    }
    left.is_empty()
}

fn has_string(name: &[u8], ty: (u32, Form)) -> bool
    ensures { result ≡ spec.has_string name.now ty }
{
    same_text(name, b"string") && has_text(ty)
}

// The text of a number or of a truth value.
pub(crate) fn builtin_says(
    core: &Core,
    children: &Children,
    name: u32,
    masks: (Mask, Mask),
) -> Option<Said>
    ensures { result ≡ spec.builtin_says core.now children.now name masks }
{
    let ty = one_type(children)?;
    let text = core.name_at(name)?;
    let reached = through_notes(children, masks)?;
    if has_string(text.as_slice(), ty) {
        Some(says_of(Some((STRING_ENTITY, Form::Val)), reached))
    } else {
        None
    }
}
