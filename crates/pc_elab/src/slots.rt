//! The slots of a member.
ghost use Rattle.pc_body_spec.specs.Fold as fold;
ghost use Rattle.std.specs.Prelude.{◌≡◌, ◌++◌, map, IfOk, OnOk};
ghost use Rattle.std.specs.Option.{option_copied};
ghost use Rattle.pc_tree.specs.View.{entity_view};
ghost use Rattle.pc_core.specs.Entities as methods;
ghost use Rattle.pc_members.specs.Views.{member_view};
ghost use Rattle.pc_body_spec.specs.Slots as local_specs;
ghost use Rattle.pc_file_spec.specs.Cores as spec;
ghost use Rattle.pc_elab.specs.Slots as counts;

use crate::signature::receiver_of;
use pc_base::List;
use pc_body_walks::{Local, added_locals, locals, slots};
use pc_caps::Cap;
use pc_core::{ParamInfo, Slot, SlotKind};
use pc_members::Member;
use pc_resolve::{Context, LocalSlots};
use pc_tree::{Entity, MethodWord, TypeRef};
use std::alloc::{AllocError, Global};

/// How many slots a program may have at most. No memory could hold more.
const MOST_SLOTS: usize = 4_294_967_295;

/// The locals of a member of this entity. Without a body, a constructor has those of its initial values.
#[tactic(auto, using(crate::proofs::Behind::nothing_behind))]
pub(crate) fn locals_of(
    alloc: Global,
    entity: &Entity,
    member: Member,
) -> Result<List<Local>, AllocError>
    ensures { IfOk result (λ l. l ≡ spec.member_locals (entity_view entity.now) (member_view member.entry)) }
{
    match member {
        Member::Written(method) => locals(alloc, entity.fields.as_slice(), method),
        Member::Bodiless(method) => match method.word {
            MethodWord::New => added_locals(alloc, entity.fields.as_slice()),
            MethodWord::Fun | MethodWord::Be => Ok(List::new(alloc)),
        },
        Member::Added => added_locals(alloc, entity.fields.as_slice()),
    }
}

// The index of the slot of a member's first local, after `this` and the parameters.
fn first_local(member: Member) -> Result<u32, AllocError>
    ensures { IfOk result (λ n. n ≡ counts.first_local (member_view member.entry)) }
{
    match member {
        Member::Written(method) | Member::Bodiless(method) => {
            let params = method.params.len();
            if params >= MOST_SLOTS {
                return Err(AllocError);
            }
            Ok(1 + params as u32)
        }
        Member::Added => Ok(1),
    }
}

/// The places and slots of a member's locals, which are these.
pub(crate) fn placed_of(
    alloc: Global,
    member: Member,
    locals: &[Local],
) -> Result<LocalSlots, AllocError>
    ensures { IfOk result (λ l. l ≡ local_specs.placed_from (counts.first_local (member_view member.entry)) locals.now) }
{
    slots(alloc, first_local(member)?, locals)
}

// The slot of `this` in a member of the entity with this number.
fn this_slot(method: u32, number: u32, member: Member) -> Slot
    ensures { result ≡ counts.this_of method number (member_view member.entry) }
{
    Slot {
        method,
        kind: SlotKind::This,
        depth: 0,
        written: Some((number, receiver_of(member))),
    }
}

// The slot of a parameter.
fn param_slot(method: u32, param: &ParamInfo) -> Slot
    ensures { result ≡ methods.param_slot method param.now }
{
    Slot {
        method,
        kind: SlotKind::Param,
        depth: 0,
        written: Some((param.entity, param.cap)),
    }
}

// The type that is written for a local.
fn written_of(context: &Context, ty: Option<&TypeRef>) -> Option<(u32, Cap)>
    ensures { result ≡ fold.written_of context.now (option_copied ty.entry) }
{
    match ty {
        Some(ty) => context.type_of(ty),
        None => None,
    }
}

// The slot of a local.
fn local_slot(context: &Context, method: u32, local: &Local) -> Slot
    ensures { result ≡ fold.local_slot context.now method local.now }
{
    Slot {
        method,
        kind: if local.is_fixed() {
            SlotKind::Let
        } else {
            SlotKind::Var
        },
        depth: local.depth(),
        written: written_of(context, local.ty()),
    }
}

// Appends the slots of these parameters.
fn add_params(slots: &mut List<Slot>, method: u32, params: &[ParamInfo]) -> Result<(), AllocError>
    ensures { OnOk result (slots.new ≡ slots.old ++ map (methods.param_slot method) params.now) }
{
    for param in params {
        slots.push(param_slot(method, param))?;
    }
    Ok(())
}

// Appends the slots of these locals.
fn add_locals(
    context: &Context,
    slots: &mut List<Slot>,
    method: u32,
    locals: &[Local],
) -> Result<(), AllocError>
    ensures { OnOk result (slots.new ≡ slots.old ++ map (fold.local_slot context.now method) locals.now) }
{
    for local in locals {
        slots.push(local_slot(context, method, local))?;
    }
    Ok(())
}

/// Appends the slots of a member that is this method, with these parameters and locals: `this`, then the parameters,
/// then the locals. The entity has this number.
pub(crate) fn add_slots(
    context: &Context,
    slots: &mut List<Slot>,
    method: u32,
    number: u32,
    member: Member,
    params: &[ParamInfo],
    locals: &[Local],
) -> Result<(), AllocError>
    ensures { OnOk result (slots.new ≡ slots.old ++ counts.slots_with context.now method number (member_view member.entry) params.now locals.now) }
{
    slots.push(this_slot(method, number, member))?;
    add_params(slots, method, params)?;
    add_locals(context, slots, method, locals)
}
