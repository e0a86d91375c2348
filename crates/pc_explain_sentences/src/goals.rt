//! Where a child's value goes, and the forms that are found.
ghost use Rattle.std.specs.Prelude.{◌≡◌, ◌++◌, OnOk};
ghost use Rattle.std.specs.Option.{option_copied};
ghost use Rattle.pc_explain_sentences.specs.Goals as spec;

use crate::stop::Stop;
use crate::texts::{AN_ALIAS, ANY_PARAMETER, FIELD, RESULT, UNSENDABLE};
use pc_caps::{Form, sendable_form};
use pc_core::{Method, MethodKind, NodeKind};
use pc_explain_window::{piece_of, push_bytes, push_quoted};
use pc_explain_words::{Scene, form_word, name_text};
use std::alloc::{AllocError, Global};

// The name of a method's parameter.
fn param_by<'a>(scene: &Scene<'a>, method: Option<&Method>, index: usize) -> &'a [u8]
    ensures { result.now ≡ spec.param_by scene.now (option_copied method.entry) index }
{
    match method {
        Some(found) => match found.params.get(index) {
            Some(param) => piece_of(scene.bytes(), param.span),
            None => b"",
        },
        None => b"",
    }
}

// Appends a name after a blank, if there is one.
#[tactic(auto, unfolding(crate::specs::Goals::name_after))]
fn push_name_after(alloc: Global, out: &mut Vec<u8>, name: &[u8]) -> Result<(), AllocError>
    ensures { OnOk result (out.new.items ≡ out.old.items ++ spec.name_after name.now) }
{
    match name {
        [] => Ok(()),
        [_, ..] => {
            push_bytes(out, b" ")?;
            push_quoted(alloc, out, name)
        }
    }
}

// Appends the parameter that an argument goes to.
fn push_parameter(
    alloc: Global,
    out: &mut Vec<u8>,
    stop: &Stop,
    index: usize,
) -> Result<(), AllocError>
    ensures { OnOk result (out.new.items ≡ out.old.items ++ spec.param_words stop.now index) }
{
    push_bytes(out, ANY_PARAMETER)?;
    push_name_after(alloc, out, param_by(stop.scene(), stop.method(), index))
}

// Appends the field that a value goes to.
fn push_field(alloc: Global, out: &mut Vec<u8>, name: &[u8]) -> Result<(), AllocError>
    ensures { OnOk result (out.new.items ≡ out.old.items ++ spec.field_goal name.now) }
{
    push_bytes(out, FIELD)?;
    push_quoted(alloc, out, name)
}

/// Appends the place that a child's value goes to: a field, a local, a parameter or the result.
#[tactic(auto, unfolding(crate::specs::Goals::goal))]
pub(crate) fn push_goal(
    alloc: Global,
    out: &mut Vec<u8>,
    stop: &Stop,
    index: usize,
) -> Result<(), AllocError>
    ensures { OnOk result (out.new.items ≡ out.old.items ++ spec.goal stop.now index) }
{
    match &stop.node().kind {
        NodeKind::SetField(name) => push_field(alloc, out, name_text(stop.core(), *name)),
        NodeKind::Define(slot) | NodeKind::Assign(slot) => {
            push_quoted(alloc, out, stop.own_slot(*slot))
        }
        NodeKind::New(_) | NodeKind::Spawn(_) | NodeKind::Call(_) => {
            push_parameter(alloc, out, stop, index)
        }
        NodeKind::Body => push_bytes(out, RESULT),
        NodeKind::Number(_)
        | NodeKind::Truth(_)
        | NodeKind::Text(_)
        | NodeKind::Prim(_)
        | NodeKind::This
        | NodeKind::Local(_)
        | NodeKind::Consume(_)
        | NodeKind::Field(_)
        | NodeKind::Binary(_)
        | NodeKind::Not
        | NodeKind::And
        | NodeKind::Or
        | NodeKind::Same(_)
        | NodeKind::Seq
        | NodeKind::If
        | NodeKind::While
        | NodeKind::Recover(_) => Ok(()),
    }
}

fn is_alias(form: Form) -> bool
    ensures { result ≡ spec.is_alias form }
{
    match form {
        Form::Iso | Form::Trn => true,
        Form::IsoE | Form::TrnE | Form::Ref | Form::Val | Form::Box | Form::Tag => false,
    }
}

// Whether the method is a behaviour.
fn is_sent(method: Option<&Method>) -> bool
    ensures { result ≡ spec.is_sent (option_copied method.entry) }
{
    match method {
        Some(found) => match found.kind {
            MethodKind::Be => true,
            MethodKind::Fun | MethodKind::New | MethodKind::Spawn => false,
        },
        None => false,
    }
}

fn is_spawn(kind: &NodeKind) -> bool
    ensures { result ≡ spec.is_spawn_node kind.now }
{
    matches!(kind, NodeKind::Spawn(_))
}

fn is_call(kind: &NodeKind) -> bool
    ensures { result ≡ spec.is_call_node kind.now }
{
    matches!(kind, NodeKind::Call(_))
}

// Whether the node sends its arguments.
fn sends(stop: &Stop) -> bool
    ensures { result ≡ spec.sends_arguments stop.now }
{
    let kind = &stop.node().kind;
    if is_spawn(kind) {
        true
    } else if is_call(kind) {
        is_sent(stop.method())
    } else {
        false
    }
}

fn form_note(sent: bool, form: Form) -> &'static [u8]
    ensures { result.now ≡ spec.form_note sent form }
{
    if is_alias(form) {
        AN_ALIAS
    } else if sent && !sendable_form(form) {
        UNSENDABLE
    } else {
        b""
    }
}

/// Appends a form that was found, with a description.
#[tactic(auto, unfolding(crate::specs::Goals::found))]
pub(crate) fn push_found(out: &mut Vec<u8>, stop: &Stop, form: Form) -> Result<(), AllocError>
    ensures { OnOk result (out.new.items ≡ out.old.items ++ spec.found stop.now form) }
{
    push_bytes(out, form_word(form))?;
    push_bytes(out, form_note(sends(stop), form))
}
