//! The lines about a declaration that fails.
ghost use Rattle.std.specs.Prelude.{◌≡◌, ◌++◌, OnOk, None, Some, slice_get};
ghost use Rattle.std.specs.List.{find};
ghost use Rattle.std.specs.Option.{option_copied};
ghost use Rattle.pc_explain.specs.Declarations as spec;

use pc_caps::Form;
use pc_core::{Core, Method, MethodKind, ParamInfo};
use pc_explain_names::kind_word;
use pc_explain_window::{piece_of, push_bytes, push_piece, push_quoted};
use pc_explain_words::{
    Scene, cap_word, entity_name, first_misfit, methods_at, name_text, new_word, push_entity,
    push_method, push_method_words, push_misfit, push_place_type, push_signature,
    push_with_article,
};
use pc_sub::DeclFault;
use std::alloc::{AllocError, Global};

fn push_creator(out: &mut Vec<u8>, form: Form) -> Result<(), AllocError>
    ensures { OnOk result (out.new.items ≡ out.old.items ++ spec.creator form) }
{
    push_bytes(out, b"a constructor that gives ")?;
    push_bytes(out, new_word(form))
}

// Appends what takes only sendable parameters.
fn push_taker(out: &mut Vec<u8>, kind: MethodKind, form: Form) -> Result<(), AllocError>
    ensures { OnOk result (out.new.items ≡ out.old.items ++ spec.taker kind form) }
{
    match kind {
        MethodKind::Be => push_bytes(out, b"a behaviour"),
        MethodKind::Spawn => push_bytes(out, b"an actor's constructor"),
        MethodKind::New | MethodKind::Fun => push_creator(out, form),
    }
}

// Appends the line about a parameter.
#[tactic(auto, unfolding(crate::specs::Declarations::parameter_line))]
fn push_parameter_line(
    alloc: Global,
    out: &mut Vec<u8>,
    scene: &Scene,
    method: &Method,
    param: ParamInfo,
) -> Result<(), AllocError>
    ensures { OnOk result (out.new.items ≡ out.old.items ++ spec.parameter_line scene.now method.now param) }
{
    push_bytes(out, b"node: the parameter ")?;
    push_quoted(alloc, out, piece_of(scene.bytes(), param.span))?;
    push_bytes(out, b", ")?;
    push_place_type(alloc, out, scene.core(), (param.entity, param.cap))?;
    push_bytes(out, b", of ")?;
    push_method(alloc, out, scene, method)?;
    push_bytes(out, b"\n")
}

// Appends the rule about sendable parameters.
#[tactic(auto, unfolding(crate::specs::Declarations::sendable_line))]
fn push_sendable_line(
    out: &mut Vec<u8>,
    method: &Method,
    param: ParamInfo,
) -> Result<(), AllocError>
    ensures { OnOk result (out.new.items ≡ out.old.items ++ spec.sendable_line method.now param) }
{
    push_bytes(out, b"rule parameters: ")?;
    push_bytes(out, cap_word(param.cap))?;
    push_bytes(out, b" is not sendable, and ")?;
    push_taker(out, method.kind, method.result.1)?;
    push_bytes(out, b" takes only parameters of iso, val or tag\n")
}

// Appends how to declare it.
#[tactic(auto, unfolding(crate::specs::Declarations::declare_hint))]
fn push_declare_hint(alloc: Global, out: &mut Vec<u8>, name: &[u8]) -> Result<(), AllocError>
    ensures { OnOk result (out.new.items ≡ out.old.items ++ spec.declare_hint name.now) }
{
    push_bytes(out, b"hint: declare it ")?;
    push_piece(alloc, out, name)?;
    push_bytes(out, b" iso, ")?;
    push_piece(alloc, out, name)?;
    push_bytes(out, b" val or ")?;
    push_piece(alloc, out, name)?;
    push_bytes(out, b" tag\n")
}

// Appends the lines about a parameter that is not sendable.
#[tactic(auto, unfolding(crate::specs::Declarations::not_sendable_lines))]
fn push_not_sendable(
    alloc: Global,
    out: &mut Vec<u8>,
    scene: &Scene,
    method: &Method,
    param: ParamInfo,
) -> Result<(), AllocError>
    ensures { OnOk result (out.new.items ≡ out.old.items ++ spec.not_sendable_lines scene.now method.now param) }
{
    push_parameter_line(alloc, out, scene, method, param)?;
    push_sendable_line(out, method, param)?;
    push_declare_hint(alloc, out, entity_name(scene.core(), param.entity))
}

fn kind_of(core: &Core, entity: u32) -> &'static [u8]
    ensures { result.now ≡ spec.entity_kind_text (slice_get core.now.entities entity) }
{
    match core.entity_at(entity) {
        Some(found) => kind_word(found.kind),
        None => b"",
    }
}

// Appends the line about an entity that lacks a method of a trait or an interface.
#[tactic(auto, unfolding(crate::specs::Declarations::provider_line))]
fn push_provider_line(
    alloc: Global,
    out: &mut Vec<u8>,
    core: &Core,
    entity: u32,
    wanted: &Method,
) -> Result<(), AllocError>
    ensures { OnOk result (out.new.items ≡ out.old.items ++ spec.provider_line core.now entity wanted.now) }
{
    push_bytes(out, b"node: the ")?;
    push_bytes(out, kind_of(core, entity))?;
    push_bytes(out, b" ")?;
    push_entity(alloc, out, core, entity)?;
    push_bytes(out, b", which is ")?;
    push_with_article(alloc, out, entity_name(core, wanted.entity))?;
    push_bytes(out, b"\n")
}

// Appends what is declared and missing.
#[tactic(auto, unfolding(crate::specs::Declarations::declares_line))]
fn push_declares_line(
    alloc: Global,
    out: &mut Vec<u8>,
    scene: &Scene,
    entity: u32,
    wanted: &Method,
) -> Result<(), AllocError>
    ensures { OnOk result (out.new.items ≡ out.old.items ++ spec.declares_line scene.now entity wanted.now) }
{
    let core = scene.core();
    push_bytes(out, b"rule is: ")?;
    push_entity(alloc, out, core, wanted.entity)?;
    push_bytes(out, b" declares ")?;
    push_method(alloc, out, scene, wanted)?;
    push_bytes(out, b", and ")?;
    push_entity(alloc, out, core, entity)?;
    push_bytes(out, b" has no such function\n")
}

// Appends a method as it would be written in its entity.
#[tactic(auto, unfolding(crate::specs::Declarations::written))]
fn push_written(
    alloc: Global,
    out: &mut Vec<u8>,
    scene: &Scene,
    method: &Method,
) -> Result<(), AllocError>
    ensures { OnOk result (out.new.items ≡ out.old.items ++ spec.written scene.now method.now) }
{
    push_method_words(out, method)?;
    push_piece(alloc, out, name_text(scene.core(), method.name))?;
    push_signature(alloc, out, scene, method)
}

// Appends what to add.
#[tactic(auto, unfolding(crate::specs::Declarations::missing_hint))]
fn push_add_hint(
    alloc: Global,
    out: &mut Vec<u8>,
    scene: &Scene,
    entity: u32,
    wanted: &Method,
) -> Result<(), AllocError>
    ensures { OnOk result (out.new.items ≡ out.old.items ++ spec.missing_hint scene.now entity wanted.now None) }
{
    push_bytes(out, b"hint: add `")?;
    push_written(alloc, out, scene, wanted)?;
    push_bytes(out, b" => ..`\n")
}

// Appends that what the entity has with this name is not a function.
#[tactic(auto, unfolding(crate::specs::Declarations::other_hint))]
fn push_other_hint(
    alloc: Global,
    out: &mut Vec<u8>,
    core: &Core,
    entity: u32,
    name: u32,
) -> Result<(), AllocError>
    ensures { OnOk result (out.new.items ≡ out.old.items ++ spec.other_hint core.now entity name) }
{
    push_bytes(out, b"hint: ")?;
    push_entity(alloc, out, core, entity)?;
    push_bytes(out, b".")?;
    push_piece(alloc, out, name_text(core, name))?;
    push_bytes(out, b" is not a function\n")
}

// Appends what to do about a method that is missing.
#[tactic(auto, unfolding(crate::specs::Declarations::missing_hint))]
fn push_missing_hint(
    alloc: Global,
    out: &mut Vec<u8>,
    scene: &Scene,
    entity: u32,
    wanted: &Method,
    found: Option<u32>,
) -> Result<(), AllocError>
    ensures { OnOk result (out.new.items ≡ out.old.items ++ spec.missing_hint scene.now entity wanted.now found) }
{
    match found {
        None => push_add_hint(alloc, out, scene, entity, wanted),
        Some(_) => push_other_hint(alloc, out, scene.core(), entity, wanted.name),
    }
}

// Appends the lines about a method that is missing.
#[tactic(auto, unfolding(crate::specs::Declarations::missing_lines))]
fn push_missing(
    alloc: Global,
    out: &mut Vec<u8>,
    scene: &Scene,
    entity: u32,
    wanted: &Method,
) -> Result<(), AllocError>
    ensures { OnOk result (out.new.items ≡ out.old.items ++ spec.missing_lines scene.now entity wanted.now) }
{
    let core = scene.core();
    let found = core.method(entity, wanted.name);
    push_provider_line(alloc, out, core, entity, wanted)?;
    push_declares_line(alloc, out, scene, entity, wanted)?;
    push_missing_hint(alloc, out, scene, entity, wanted, found)
}

// Whether the method cannot replace one with its name.
#[tactic(auto, unfolding(crate::specs::Declarations::wants))]
fn wants(core: &Core, given: &Method, wanted: &Method) -> bool
    ensures { result ≡ spec.wants core.now given.now wanted.now }
{
    wanted.name == given.name && first_misfit(core, wanted, given).is_some()
}

// The first of these that the method cannot replace.
fn wanted_among<'a>(core: &Core, given: &Method, methods: &'a [Method]) -> Option<&'a Method>
    ensures { option_copied result ≡ find (spec.wants core.now given.now) methods.now }
{
    methods.iter().find(|wanted| wants(core, given, wanted))
}

// The first method of these entities that the method cannot replace.
#[tactic(auto, unfolding(crate::specs::Declarations::wanted_from))]
fn wanted_from<'a>(core: &'a Core, given: &Method, entities: &[u32]) -> Option<&'a Method>
    ensures { option_copied result ≡ spec.wanted_from core.now given.now entities.now }
{
    for entity in entities {
        let found = wanted_among(core, given, methods_at(core, *entity));
        if found.is_some() {
            return found;
        }
    }
    None
}

// The traits and interfaces of an entity's `is` list.
fn provided_by(core: &Core, entity: u32) -> &[u32]
    ensures { result.now ≡ spec.provided_by (slice_get core.now.entities entity) }
{
    match core.entity_at(entity) {
        Some(found) => found.provides.as_slice(),
        None => &[],
    }
}

// Appends the rule that the method breaks.
#[tactic(auto, unfolding(crate::specs::Declarations::misfit_line))]
fn push_misfit_line(
    alloc: Global,
    out: &mut Vec<u8>,
    scene: &Scene,
    wanted: &Method,
    given: &Method,
) -> Result<(), AllocError>
    ensures { OnOk result (out.new.items ≡ out.old.items ++ spec.misfit_line scene.now wanted.now given.now) }
{
    let misfit = first_misfit(scene.core(), wanted, given);
    push_bytes(out, b"rule is: ")?;
    push_misfit(alloc, out, scene, wanted, given, misfit)?;
    push_bytes(out, b"\n")
}

// Appends what the method should replace, and why it cannot.
#[tactic(auto, unfolding(crate::specs::Declarations::stands_lines))]
fn push_stands_lines(
    alloc: Global,
    out: &mut Vec<u8>,
    scene: &Scene,
    given: &Method,
    wanted: &Method,
) -> Result<(), AllocError>
    ensures { OnOk result (out.new.items ≡ out.old.items ++ spec.stands_lines scene.now given.now (Some wanted.now)) }
{
    push_bytes(out, b"part: it stands for ")?;
    push_method(alloc, out, scene, wanted)?;
    push_bytes(out, b"\n")?;
    push_misfit_line(alloc, out, scene, wanted, given)
}

// Appends the line about a method.
#[tactic(auto, unfolding(crate::specs::Declarations::method_node_line))]
fn push_method_line(
    alloc: Global,
    out: &mut Vec<u8>,
    scene: &Scene,
    given: &Method,
) -> Result<(), AllocError>
    ensures { OnOk result (out.new.items ≡ out.old.items ++ spec.method_node_line scene.now given.now) }
{
    push_bytes(out, b"node: the method ")?;
    push_method(alloc, out, scene, given)?;
    push_bytes(out, b"\n")
}

// Appends the lines about a method that does not fit.
#[tactic(auto, unfolding(crate::specs::Declarations::mismatch_lines))]
fn push_mismatch(
    alloc: Global,
    out: &mut Vec<u8>,
    scene: &Scene,
    entity: u32,
    given: &Method,
) -> Result<(), AllocError>
    ensures { OnOk result (out.new.items ≡ out.old.items ++ spec.mismatch_lines scene.now entity given.now) }
{
    let core = scene.core();
    push_method_line(alloc, out, scene, given)?;
    match wanted_from(core, given, provided_by(core, entity)) {
        None => Ok(()),
        Some(wanted) => push_stands_lines(alloc, out, scene, given, wanted),
    }
}

// Appends the lines about a parameter of a method.
fn push_parameter(
    alloc: Global,
    out: &mut Vec<u8>,
    scene: &Scene,
    method: u32,
    parameter: u32,
) -> Result<(), AllocError>
    ensures { OnOk result (out.new.items ≡ out.old.items ++ spec.parameter_lines scene.now (slice_get scene.now.core.methods method) parameter) }
{
    match scene.core().method_at(method) {
        None => Ok(()),
        Some(found) => match found.params.get(parameter as usize) {
            None => Ok(()),
            Some(param) => push_not_sendable(alloc, out, scene, found, *param),
        },
    }
}

/// Appends the lines about a declaration that fails.
#[tactic(auto, unfolding(crate::specs::Declarations::declaration_lines))]
pub(crate) fn push_declaration_lines(
    alloc: Global,
    out: &mut Vec<u8>,
    scene: &Scene,
    fault: DeclFault,
) -> Result<(), AllocError>
    ensures { OnOk result (out.new.items ≡ out.old.items ++ spec.declaration_lines scene.now fault) }
{
    match fault {
        DeclFault::NotSendable { method, parameter } => {
            push_parameter(alloc, out, scene, method, parameter)
        }
        DeclFault::MissingMethod { entity, method } => match scene.core().method_at(method) {
            None => Ok(()),
            Some(wanted) => push_missing(alloc, out, scene, entity, wanted),
        },
        DeclFault::Mismatch { entity, method } => match scene.core().method_at(method) {
            None => Ok(()),
            Some(given) => push_mismatch(alloc, out, scene, entity, given),
        },
    }
}
