//! What constructors are about to do.
ghost use Rattle.std.specs.Prelude.{◌≡◌, length, slice_get, IfOk};
ghost use Rattle.pc_semantics.specs.Configurations.{Around};
ghost use Rattle.pc_semantics.specs.Parts.{make_of, spawn_of};
ghost use Rattle.pc_semantics.specs.Calls.{make_task, spawn_task};
ghost use Rattle.pc_tasks.specs.Inside.{relieved};
ghost use Rattle.pc_machine.specs.Plans.{after_call, move_of, PlanFits};
ghost use Rattle.pc_semantics.specs.declared.frames.Frame.{Frame};

use crate::arguments::{arguments_on, message_of};
use crate::frames::begin_frame;
use crate::lookups::fields_of;
use crate::plan::Plan;
use pc_core::{Core, Node, NodeKind};
use pc_heap::Value;
use pc_semantics::{Frame, Lack};
use pc_tree::NONE_ENTITY;
use std::alloc::{AllocError, Global};

// What a class's constructor with this number is about to do with these arguments.
fn plan_object(
    alloc: Global,
    core: &Core,
    number: u32,
    arguments: &[Value],
) -> Result<Plan, AllocError>
    ensures means { IfOk result (λ plan. (around : Around) (f : Frame) → move_of around plan f
        ≡ make_of core.now around number arguments.now (after_call (length arguments.now) f) (slice_get core.now.methods number)) }
    ensures fits { IfOk result (λ plan. PlanFits plan (length arguments.now)) }
{
    let Some(method) = core.method_at(number) else {
        return Ok(Plan::Lacks(Lack::Method));
    };
    if arguments.len() != method.params.len() {
        return Ok(Plan::Lacks(Lack::Method));
    }
    let Some(body) = method.body else {
        return Ok(Plan::Lacks(Lack::Method));
    };
    let frame = begin_frame(
        alloc,
        number,
        method,
        Value::Prim(NONE_ENTITY),
        arguments,
        body,
    )?;
    Ok(Plan::Makes {
        count: arguments.len(),
        entity: method.entity,
        fields: fields_of(core, method.entity),
        frame,
    })
}

/// What the task Make of a node is about to do.
pub fn plan_make(alloc: Global, core: &Core, frame: &Frame, node: &Node) -> Result<Plan, AllocError>
    ensures means { IfOk result (λ plan. (around : Around) → move_of around plan frame.now
        ≡ make_task core.now around (relieved frame.now) node.now.children node.now.kind) }
    ensures fits { IfOk result (λ plan. PlanFits plan (length frame.now.stack)) }
{
    let NodeKind::New(number) = &node.kind else {
        return Ok(Plan::Lacks(Lack::Value));
    };
    let Some(arguments) = arguments_on(&frame.stack, node.children.len()) else {
        return Ok(Plan::Lacks(Lack::Value));
    };
    plan_object(alloc, core, *number, arguments)
}

// What an actor's constructor with this number is about to do with these arguments.
fn plan_actor(
    alloc: Global,
    core: &Core,
    number: u32,
    arguments: &[Value],
) -> Result<Plan, AllocError>
    ensures means { IfOk result (λ plan. (around : Around) (f : Frame) → move_of around plan f
        ≡ spawn_of core.now around number arguments.now (after_call (length arguments.now) f) (slice_get core.now.methods number)) }
    ensures fits { IfOk result (λ plan. PlanFits plan (length arguments.now)) }
{
    let Some(method) = core.method_at(number) else {
        return Ok(Plan::Lacks(Lack::Method));
    };
    if arguments.len() != method.params.len() {
        return Ok(Plan::Lacks(Lack::Method));
    }
    let message = message_of(alloc, number, arguments)?;
    Ok(Plan::Spawns {
        count: arguments.len(),
        entity: method.entity,
        fields: fields_of(core, method.entity),
        message,
    })
}

/// What the task Spawn of a node is about to do.
pub fn plan_spawn(
    alloc: Global,
    core: &Core,
    frame: &Frame,
    node: &Node,
) -> Result<Plan, AllocError>
    ensures means { IfOk result (λ plan. (around : Around) → move_of around plan frame.now
        ≡ spawn_task core.now around (relieved frame.now) node.now.children node.now.kind) }
    ensures fits { IfOk result (λ plan. PlanFits plan (length frame.now.stack)) }
{
    let NodeKind::Spawn(number) = &node.kind else {
        return Ok(Plan::Lacks(Lack::Value));
    };
    let Some(arguments) = arguments_on(&frame.stack, node.children.len()) else {
        return Ok(Plan::Lacks(Lack::Value));
    };
    plan_actor(alloc, core, *number, arguments)
}
