//! What a member declares.
ghost use Rattle.std.specs.Prelude.{◌≡◌, map, IfOk};
ghost use Rattle.pc_tree.specs.View.{method_view};
ghost use Rattle.pc_core.specs.Entities as core_spec;
ghost use Rattle.pc_file_spec.specs.Cores as spec;
ghost use Rattle.pc_members.specs.Views.{member_view};

use crate::known::cap_or;
use pc_base::List;
use pc_caps::{Cap, Form, plain, unalias};
use pc_core::{MethodKind, ParamInfo};
use pc_members::Member;
use pc_resolve::Context;
use pc_tree::{EntityKind, MethodDef, MethodWord, NONE_ENTITY, ParamDef, TypeRef};
use std::alloc::{AllocError, Global};

/// A type among the entities of a file. If the names of the file have no fault, every type is there.
pub(crate) fn type_in(context: &Context, ty: &TypeRef) -> (u32, Cap)
    ensures { result ≡ spec.type_in context.now.entities ty.now }
{
    match context.type_of(ty) {
        Some(written) => written,
        None => (NONE_ENTITY, Cap::Val),
    }
}

// ---- parameters, receiver and result

fn param_of(context: &Context, param: &ParamDef) -> ParamInfo
    ensures { result ≡ spec.param_of context.now.entities param.now }
{
    let (entity, cap) = type_in(context, &param.ty);
    ParamInfo {
        entity,
        cap,
        span: param.name.span,
    }
}

fn list_params(
    alloc: Global,
    context: &Context,
    params: &[ParamDef],
) -> Result<List<ParamInfo>, AllocError>
    ensures { IfOk result (λ l. l ≡ map (spec.param_of context.now.entities) params.now) }
{
    let mut list = List::new(alloc);
    for param in params {
        list.push_within(params.len(), param_of(context, param))?;
    }
    Ok(list)
}

/// The parameters of a member.
pub(crate) fn params_of(
    alloc: Global,
    context: &Context,
    member: Member,
) -> Result<List<ParamInfo>, AllocError>
    ensures { IfOk result (λ l. l ≡ spec.params_of context.now.entities (member_view member.entry)) }
{
    match member {
        Member::Written(method) | Member::Bodiless(method) => list_params(
            alloc,
            context,
            method.params.as_slice(),
        ),
        Member::Added => Ok(List::new(alloc)),
    }
}

// A constructor of an actor spawns it.
fn constructor_kind(entity: EntityKind) -> MethodKind
    ensures { result ≡ core_spec.constructor_kind entity }
{
    match entity {
        EntityKind::Actor => MethodKind::Spawn,
        EntityKind::Class | EntityKind::Primitive | EntityKind::Trait | EntityKind::Interface =>
            MethodKind::New,
    }
}

/// The kind of a member of an entity of this kind.
pub(crate) fn kind_of(entity: EntityKind, member: Member) -> MethodKind
    ensures { result ≡ spec.kind_of entity (member_view member.entry) }
{
    match member {
        Member::Written(method) | Member::Bodiless(method) => match method.word {
            MethodWord::Fun => MethodKind::Fun,
            MethodWord::Be => MethodKind::Be,
            MethodWord::New => constructor_kind(entity),
        },
        Member::Added => constructor_kind(entity),
    }
}

/// The capability of `this` in a member: `box` in a function without a written capability, and `ref` in behaviours and
/// constructors.
pub(crate) fn receiver_of(member: Member) -> Cap
    ensures { result ≡ spec.receiver_cap (member_view member.entry) }
{
    match member {
        Member::Written(method) | Member::Bodiless(method) => match method.word {
            MethodWord::Fun => cap_or(method.cap, Cap::Box),
            MethodWord::Be | MethodWord::New => Cap::Ref,
        },
        Member::Added => Cap::Ref,
    }
}

// With `^` no place holds the value yet.
fn result_form(hat: bool, cap: Cap) -> Form
    ensures { result ≡ spec.result_form hat cap }
{
    if hat { unalias(cap) } else { plain(cap) }
}

// The result of a function, which is None if nothing is written.
fn written_result(context: &Context, ty: &Option<TypeRef>) -> (u32, Form)
    ensures { result ≡ spec.written_result context.now.entities ty.now }
{
    match ty {
        Some(ty) => {
            let (entity, cap) = type_in(context, ty);
            (entity, result_form(ty.hat, cap))
        }
        None => (NONE_ENTITY, Form::Val),
    }
}

// A new object of the entity with this number: an actor is `tag`, and an object of a class has the capability that its
// constructor gives it.
fn object_of(entity: EntityKind, number: u32, cap: Cap) -> (u32, Form)
    ensures { result ≡ spec.object_of entity number cap }
{
    match entity {
        EntityKind::Actor => (number, Form::Tag),
        EntityKind::Class | EntityKind::Primitive | EntityKind::Trait | EntityKind::Interface => (
            number,
            unalias(cap),
        ),
    }
}

// The result of a written method.
fn method_result(
    context: &Context,
    entity: EntityKind,
    number: u32,
    method: &MethodDef,
) -> (u32, Form)
    ensures { result ≡ spec.word_result context.now.entities entity number (method_view method.now) method.now.word }
{
    match method.word {
        MethodWord::Fun => written_result(context, &method.result),
        MethodWord::Be => (NONE_ENTITY, Form::Val),
        MethodWord::New => object_of(entity, number, cap_or(method.cap, Cap::Ref)),
    }
}

/// The result of a member of the entity with this kind and number. The object made by an added `create` is isolated.
pub(crate) fn result_of(
    context: &Context,
    entity: EntityKind,
    number: u32,
    member: Member,
) -> (u32, Form)
    ensures { result ≡ spec.result_of context.now.entities entity number (member_view member.entry) }
{
    match member {
        Member::Written(method) | Member::Bodiless(method) => method_result(
            context, entity, number, method,
        ),
        Member::Added => object_of(entity, number, Cap::Iso),
    }
}
