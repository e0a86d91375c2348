//! Methods as they are declared.
ghost use Rattle.std.specs.Prelude.{◌≡◌, ◌++◌, true, OnOk, Some, slice_get};
ghost use Rattle.std.specs.List.{find};
ghost use Rattle.std.specs.Option.{option_copied};
ghost use Rattle.pc_explain_words.specs.Methods as spec;

use crate::caps::{cap_word, new_word};
use crate::forms::{name_text, push_entity, push_place_type, push_type};
use crate::scene::Scene;
use pc_base::Span;
use pc_caps::Form;
use pc_core::{Core, Method, MethodKind, ParamInfo};
use pc_explain_window::{piece_of, push_bytes, push_piece};
use std::alloc::{AllocError, Global};

/// Appends `E.m`.
#[tactic(auto, unfolding(crate::specs::Methods::full_method_name))]
pub fn push_method_name(
    alloc: Global,
    out: &mut Vec<u8>,
    core: &Core,
    method: &Method,
) -> Result<(), AllocError>
    ensures { OnOk result (out.new.items ≡ out.old.items ++ spec.full_method_name core.now method.now) }
{
    push_entity(alloc, out, core, method.entity)?;
    push_bytes(out, b".")?;
    push_piece(alloc, out, name_text(core, method.name))
}

/// Appends what comes before a method's name: `fun ref `, `be `, `new iso ` or `new `.
pub fn push_method_words(out: &mut Vec<u8>, method: &Method) -> Result<(), AllocError>
    ensures { OnOk result (out.new.items ≡ out.old.items ++ spec.method_words method.now) }
{
    match method.kind {
        MethodKind::Fun => {
            push_bytes(out, b"fun ")?;
            push_bytes(out, cap_word(method.receiver))?;
            push_bytes(out, b" ")
        }
        MethodKind::Be => push_bytes(out, b"be "),
        MethodKind::New => {
            push_bytes(out, b"new ")?;
            push_bytes(out, new_word(method.result.1))?;
            push_bytes(out, b" ")
        }
        MethodKind::Spawn => push_bytes(out, b"new "),
    }
}

// A comma, unless this is the first parameter.
fn between(first: bool) -> &'static [u8]
    ensures { result.now ≡ spec.param_separator first }
{
    if first { b"" } else { b", " }
}

// Appends a name and a colon, if there is a name.
#[tactic(auto, unfolding(crate::specs::Methods::name_before))]
fn push_name_before(alloc: Global, out: &mut Vec<u8>, name: &[u8]) -> Result<(), AllocError>
    ensures { OnOk result (out.new.items ≡ out.old.items ++ spec.name_before name.now) }
{
    match name {
        [] => Ok(()),
        [_, ..] => {
            push_piece(alloc, out, name)?;
            push_bytes(out, b": ")
        }
    }
}

// Appends a parameter.
fn push_param(
    alloc: Global,
    out: &mut Vec<u8>,
    scene: &Scene,
    param: ParamInfo,
) -> Result<(), AllocError>
    ensures { OnOk result (out.new.items ≡ out.old.items ++ spec.declared_param scene.now param) }
{
    push_name_before(alloc, out, piece_of(scene.bytes(), param.span))?;
    push_place_type(alloc, out, scene.core(), (param.entity, param.cap))
}

// Appends a parameter, after a comma unless it is the first.
fn push_one_param(
    alloc: Global,
    out: &mut Vec<u8>,
    scene: &Scene,
    first: bool,
    param: ParamInfo,
) -> Result<(), AllocError>
    ensures { OnOk result (out.new.items ≡ out.old.items ++ spec.one_param scene.now first param) }
{
    push_bytes(out, between(first))?;
    push_param(alloc, out, scene, param)
}

// Appends parameters with a comma between any two.
fn push_all_params(
    alloc: Global,
    out: &mut Vec<u8>,
    scene: &Scene,
    params: &[ParamInfo],
) -> Result<(), AllocError>
    ensures { OnOk result (out.new.items ≡ out.old.items ++ spec.declared_params_from scene.now true params.now) }
{
    let mut first = true;
    for param in params {
        push_one_param(alloc, out, scene, first, *param)?;
        first = false;
    }
    Ok(())
}

// Appends parameters in parentheses.
fn push_params(
    alloc: Global,
    out: &mut Vec<u8>,
    scene: &Scene,
    params: &[ParamInfo],
) -> Result<(), AllocError>
    ensures { OnOk result (out.new.items ≡ out.old.items ++ spec.declared_params scene.now params.now) }
{
    push_bytes(out, b"(")?;
    push_all_params(alloc, out, scene, params)?;
    push_bytes(out, b")")
}

// Appends the result of a function.
fn push_result(
    alloc: Global,
    out: &mut Vec<u8>,
    core: &Core,
    kind: MethodKind,
    ty: (u32, Form),
) -> Result<(), AllocError>
    ensures { OnOk result (out.new.items ≡ out.old.items ++ spec.result_part core.now kind ty) }
{
    match kind {
        MethodKind::Fun => {
            push_bytes(out, b": ")?;
            push_type(alloc, out, core, ty)
        }
        MethodKind::Be | MethodKind::New | MethodKind::Spawn => Ok(()),
    }
}

/// Appends what comes after a method's name: its parameters, and the result of a function.
#[tactic(auto, unfolding(crate::specs::Methods::signature))]
pub fn push_signature(
    alloc: Global,
    out: &mut Vec<u8>,
    scene: &Scene,
    method: &Method,
) -> Result<(), AllocError>
    ensures { OnOk result (out.new.items ≡ out.old.items ++ spec.signature scene.now method.now) }
{
    push_params(alloc, out, scene, method.params.as_slice())?;
    push_result(alloc, out, scene.core(), method.kind, method.result)
}

/// Appends a method as it is declared, with all its capabilities.
#[tactic(auto, unfolding(crate::specs::Methods::declared_method))]
pub fn push_method(
    alloc: Global,
    out: &mut Vec<u8>,
    scene: &Scene,
    method: &Method,
) -> Result<(), AllocError>
    ensures { OnOk result (out.new.items ≡ out.old.items ++ spec.declared_method scene.now method.now) }
{
    push_method_words(out, method)?;
    push_method_name(alloc, out, scene.core(), method)?;
    push_signature(alloc, out, scene, method)
}

fn same_span(one: Span, other: Span) -> bool
    ensures { result ≡ spec.same_span one other }
{
    one.start == other.start && one.end == other.end
}

// Whether an entity is a trait or an interface.
fn is_abstract(core: &Core, entity: u32) -> bool
    ensures { result ≡ spec.abstract_in (slice_get core.now.entities entity) }
{
    match core.entity_at(entity) {
        Some(found) => found.kind.is_abstract(),
        None => false,
    }
}

// Whether the other method is the one that the method was taken over from.
fn gives_text(core: &Core, method: &Method, other: &Method) -> bool
    ensures { result ≡ spec.gives_text core.now method.now other.now }
{
    same_span(other.span, method.span)
        && (other.entity != method.entity && is_abstract(core, other.entity))
}

// The method of a trait or an interface that the method was taken over from.
fn taken_from<'a>(core: &'a Core, method: &Method) -> Option<&'a Method>
    ensures { option_copied result ≡ find (spec.gives_text core.now method.now) core.now.methods }
{
    core.methods()
        .iter()
        .find(|other| gives_text(core, method, other))
}

// Appends what a method was taken over from.
fn push_taken_words(
    alloc: Global,
    out: &mut Vec<u8>,
    core: &Core,
    from: Option<&Method>,
) -> Result<(), AllocError>
    ensures { OnOk result (out.new.items ≡ out.old.items ++ spec.taken_words core.now (option_copied from.entry)) }
{
    match from {
        None => Ok(()),
        Some(found) => {
            push_bytes(out, b", which is taken over from ")?;
            push_entity(alloc, out, core, found.entity)
        }
    }
}

/// Appends what the method was taken over from, if it was.
#[tactic(auto, unfolding(crate::specs::Methods::taken_over_words))]
pub fn push_taken(
    alloc: Global,
    out: &mut Vec<u8>,
    core: &Core,
    method: &Method,
) -> Result<(), AllocError>
    ensures { OnOk result (out.new.items ≡ out.old.items ++ spec.taken_over_words core.now method.now) }
{
    push_taken_words(alloc, out, core, taken_from(core, method))
}

// Appends ` in E.m`, and what the method was taken over from.
fn push_home_of(
    alloc: Global,
    out: &mut Vec<u8>,
    core: &Core,
    method: &Method,
) -> Result<(), AllocError>
    ensures { OnOk result (out.new.items ≡ out.old.items ++ spec.home_of core.now (Some method.now)) }
{
    push_bytes(out, b" in ")?;
    push_method_name(alloc, out, core, method)?;
    push_taken(alloc, out, core, method)
}

/// The same for the method with this number.
#[tactic(auto, unfolding(crate::specs::Methods::home_of_method))]
pub fn push_home(
    alloc: Global,
    out: &mut Vec<u8>,
    core: &Core,
    method: u32,
) -> Result<(), AllocError>
    ensures { OnOk result (out.new.items ≡ out.old.items ++ spec.home_of_method core.now method) }
{
    match core.method_at(method) {
        None => Ok(()),
        Some(found) => push_home_of(alloc, out, core, found),
    }
}
