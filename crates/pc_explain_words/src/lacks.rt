//! Why an entity is not below an interface.
ghost use Rattle.std.specs.Prelude.{◌≡◌, ◌++◌, ◌+◌, ◌≤◌, OnOk, length, slice_get};
ghost use Rattle.std.specs.List.{find};
ghost use Rattle.std.specs.Option.{option_copied};
ghost use Rattle.pc_core.specs.CoreData.{own_methods};
ghost use Rattle.pc_sub.specs.DeclarationFaults.{same_kind as same_kind_is};
ghost use Rattle.pc_sub.specs.Computed.{is_interface as is_interface_is};
ghost use Rattle.pc_explain_words.specs.Lacks as spec;

use crate::forms::name_text;
use crate::methods::push_method_name;
use crate::misfits::{Misfit, first_misfit, push_misfit};
use crate::scene::Scene;
use pc_core::{Core, EntityDef, Method, MethodKind};
use pc_explain_window::{push_bytes, push_quoted};
use pc_tree::EntityKind;
use std::alloc::{AllocError, Global};

// The methods of an entity.
fn methods_of<'a>(core: &'a Core, entity: &EntityDef) -> &'a [Method]
    requires { entity.now.first_method + entity.now.methods ≤ length core.now.methods }
    ensures { result.now ≡ own_methods core.now entity.now }
{
    let first = entity.first_method as usize;
    &core.methods()[first..first + entity.methods as usize]
}

/// The methods of the entity with this number.
pub fn methods_at(core: &Core, entity: u32) -> &[Method]
    ensures { result.now ≡ spec.methods_in core.now (slice_get core.now.entities entity) }
{
    core.formed();
    match core.entity_at(entity) {
        Some(found) => methods_of(core, found),
        None => &[],
    }
}

fn same_kind(one: MethodKind, other: MethodKind) -> bool
    ensures { result ≡ same_kind_is one other }
{
    one == other
}

// The entity's method with the name and kind of this one.
fn method_like<'a>(core: &'a Core, entity: u32, wanted: &Method) -> Option<&'a Method>
    ensures { option_copied result ≡ spec.like core.now entity wanted.now }
{
    let number = core.method(entity, wanted.name)?;
    let found = core.method_at(number)?;
    if same_kind(found.kind, wanted.kind) {
        Some(found)
    } else {
        None
    }
}

// Appends that the entity has no such method.
#[tactic(auto, unfolding(crate::specs::Lacks::missing_words))]
fn push_missing(
    alloc: Global,
    out: &mut Vec<u8>,
    core: &Core,
    wanted: &Method,
) -> Result<(), AllocError>
    ensures { OnOk result (out.new.items ≡ out.old.items ++ spec.missing_words core.now wanted.now) }
{
    push_bytes(out, b": it has no function ")?;
    push_quoted(alloc, out, name_text(core, wanted.name))
}

// Appends what does not fit about the entity's method.
#[tactic(auto, unfolding(crate::specs::Lacks::misfit_words))]
fn push_unfit(
    alloc: Global,
    out: &mut Vec<u8>,
    scene: &Scene,
    wanted: &Method,
    given: &Method,
    misfit: Option<Misfit>,
) -> Result<(), AllocError>
    ensures { OnOk result (out.new.items ≡ out.old.items ++ spec.misfit_words scene.now wanted.now given.now misfit) }
{
    push_bytes(out, b": for ")?;
    push_method_name(alloc, out, scene.core(), given)?;
    push_bytes(out, b", ")?;
    push_misfit(alloc, out, scene, wanted, given, misfit)
}

// Whether the entity lacks the method: it has none with its name and kind, or that one cannot replace it.
fn is_lacking(core: &Core, entity: u32, wanted: &Method) -> bool
    ensures { result ≡ spec.is_lacking core.now entity wanted.now }
{
    match method_like(core, entity, wanted) {
        None => true,
        Some(given) => first_misfit(core, wanted, given).is_some(),
    }
}

// Appends what the entity lacks of a method.
fn push_lack(
    alloc: Global,
    out: &mut Vec<u8>,
    scene: &Scene,
    entity: u32,
    wanted: &Method,
) -> Result<(), AllocError>
    ensures { OnOk result (out.new.items ≡ out.old.items ++ spec.lack scene.now entity wanted.now) }
{
    let core = scene.core();
    match method_like(core, entity, wanted) {
        None => push_missing(alloc, out, core, wanted),
        Some(given) => {
            let misfit = first_misfit(core, wanted, given);
            push_unfit(alloc, out, scene, wanted, given, misfit)
        }
    }
}

// The first of these methods that the entity lacks.
fn lacking<'a>(core: &Core, entity: u32, methods: &'a [Method]) -> Option<&'a Method>
    ensures { option_copied result ≡ find (spec.is_lacking core.now entity) methods.now }
{
    methods
        .iter()
        .find(|wanted| is_lacking(core, entity, wanted))
}

fn is_interface(core: &Core, entity: u32) -> bool
    ensures { result ≡ is_interface_is (slice_get core.now.entities entity) }
{
    match core.entity_at(entity) {
        Some(found) => matches!(found.kind, EntityKind::Interface),
        None => false,
    }
}

// Appends what the entity lacks of these methods.
fn push_lacks(
    alloc: Global,
    out: &mut Vec<u8>,
    scene: &Scene,
    entity: u32,
    methods: &[Method],
) -> Result<(), AllocError>
    ensures { OnOk result (out.new.items ≡ out.old.items ++ spec.lacks scene.now entity methods.now) }
{
    match lacking(scene.core(), entity, methods) {
        None => Ok(()),
        Some(wanted) => push_lack(alloc, out, scene, entity, wanted),
    }
}

/// Appends which method of an interface an entity lacks, or which does not fit. If the other entity is not an
/// interface, nothing is said.
#[tactic(auto, unfolding(crate::specs::Lacks::why_not_below))]
pub fn push_why_not_below(
    alloc: Global,
    out: &mut Vec<u8>,
    scene: &Scene,
    entity: u32,
    above: u32,
) -> Result<(), AllocError>
    ensures { OnOk result (out.new.items ≡ out.old.items ++ spec.why_not_below scene.now entity above) }
{
    let core = scene.core();
    if is_interface(core, above) {
        push_lacks(alloc, out, scene, entity, methods_at(core, above))
    } else {
        Ok(())
    }
}
