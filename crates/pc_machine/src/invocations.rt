//! What the call of a method by its name is about to do.
ghost use Rattle.std.specs.Prelude.{◌≡◌, ◌+◌, ℕ, length, IfOk};
ghost use Rattle.pc_heap.specs.Objects.{ObjectMap};
ghost use Rattle.pc_semantics.specs.Configurations as around;
ghost use Rattle.pc_semantics.specs.Configurations.{Around};
ghost use Rattle.pc_semantics.specs.Calls as spec;
ghost use Rattle.pc_semantics.specs.Parts as parts;
ghost use Rattle.pc_tasks.specs.Inside.{amid, relieved};
ghost use Rattle.pc_machine.specs.Plans.{after_call, receiver_in, move_of, PlanFits};
ghost use Rattle.pc_semantics.specs.declared.frames.Frame.{Frame};

use crate::arguments::{arguments_below, message_of};
use crate::frames::begin_frame;
use crate::lookups::entity_of;
use crate::plan::{Change, Plan};
use crate::strings::plan_string;
use pc_core::{Core, Method, MethodKind, Node, NodeKind};
use pc_heap::{Heap, Value};
use pc_semantics::{Frame, Lack};
use std::alloc::{AllocError, Global};

// What the call of a function is about to do.
fn plan_function(
    alloc: Global,
    number: u32,
    method: &Method,
    this: &Value,
    arguments: &[Value],
) -> Result<Plan, AllocError>
    ensures means { IfOk result (λ plan. (around : Around) (f : Frame) → move_of around plan f
        ≡ spec.counted method.now arguments.now
        (parts.enter number method.now this.now arguments.now (after_call (length arguments.now + 1) f) method.now.body)) }
    ensures fits { IfOk result (λ plan. PlanFits plan (length arguments.now + 1)) }
{
    if arguments.len() != method.params.len() {
        return Ok(Plan::Lacks(Lack::Method));
    }
    let Some(body) = method.body else {
        return Ok(Plan::Lacks(Lack::Method));
    };
    let this = this.copy()?;
    let frame = begin_frame(alloc, number, method, this, arguments, body)?;
    Ok(Plan::Changes(Change::Enters {
        count: arguments.len() + 1,
        frame,
    }))
}

/// The actor whose own object a value is, if it is one of this number of actors.
pub fn receiver_of(value: &Value, actors: usize) -> Option<u32>
    ensures { result ≡ receiver_in value.now actors }
{
    match value {
        Value::At(address) if address.serial == 0 && (address.maker as usize) < actors => Some(
            address.maker,
        ),
        Value::Num(_) | Value::Truth(_) | Value::Text(_) | Value::Prim(_) | Value::At(_) => None,
    }
}

// What the call of a behaviour is about to do, if there are this many actors.
fn plan_message(
    alloc: Global,
    actors: usize,
    number: u32,
    method: &Method,
    this: &Value,
    arguments: &[Value],
) -> Result<Plan, AllocError>
    ensures means { IfOk result (λ plan. (objects : ObjectMap) (i : ℕ) (f : Frame) → move_of (amid objects i actors) plan f
        ≡ parts.send (amid objects i actors) number method.now arguments.now (after_call (length arguments.now + 1) f) this.now) }
    ensures fits { IfOk result (λ plan. PlanFits plan (length arguments.now + 1)) }
{
    let Some(receiver) = receiver_of(this, actors) else {
        return Ok(Plan::Lacks(Lack::Object));
    };
    if arguments.len() != method.params.len() {
        return Ok(Plan::Lacks(Lack::Method));
    }
    let message = message_of(alloc, number, arguments)?;
    Ok(Plan::Sends {
        count: arguments.len() + 1,
        receiver,
        message,
    })
}

// What the call of a method of the receiver is about to do.
fn plan_method(
    alloc: Global,
    actors: usize,
    number: u32,
    method: &Method,
    this: &Value,
    arguments: &[Value],
) -> Result<Plan, AllocError>
    ensures means { IfOk result (λ plan. (objects : ObjectMap) (i : ℕ) (f : Frame) → move_of (amid objects i actors) plan f
        ≡ spec.invoke_kind (amid objects i actors) number method.now this.now arguments.now
        (after_call (length arguments.now + 1) f) method.now.kind) }
    ensures fits { IfOk result (λ plan. PlanFits plan (length arguments.now + 1)) }
{
    match method.kind {
        MethodKind::Fun => plan_function(alloc, number, method, this, arguments),
        MethodKind::Be => plan_message(alloc, actors, number, method, this, arguments),
        MethodKind::New | MethodKind::Spawn => Ok(Plan::Lacks(Lack::Method)),
    }
}

// What the call of a name on a receiver is about to do.
fn plan_call(
    alloc: Global,
    core: &Core,
    heap: &Heap,
    actors: usize,
    name: u32,
    this: &Value,
    arguments: &[Value],
) -> Result<Plan, AllocError>
    ensures means { IfOk result (λ plan. (i : ℕ) (f : Frame) → move_of (amid heap.now.objects i actors) plan f
        ≡ parts.invoke_on core.now (amid heap.now.objects i actors) name this.now arguments.now
        (after_call (length arguments.now + 1) f) (around.value_entity heap.now.objects this.now)) }
    ensures fits { IfOk result (λ plan. PlanFits plan (length arguments.now + 1)) }
{
    let Some(entity) = entity_of(heap, this) else {
        return Ok(Plan::Lacks(Lack::Method));
    };
    let Some(number) = core.method(entity, name) else {
        return plan_string(alloc, core, name, this, arguments);
    };
    let Some(method) = core.method_at(number) else {
        return Ok(Plan::Lacks(Lack::Method));
    };
    plan_method(alloc, actors, number, method, this, arguments)
}

/// What the task Invoke of a node is about to do, if there are this many actors.
pub fn plan_invoke(
    alloc: Global,
    core: &Core,
    heap: &Heap,
    actors: usize,
    frame: &Frame,
    node: &Node,
) -> Result<Plan, AllocError>
    ensures means { IfOk result (λ plan. (i : ℕ) → move_of (amid heap.now.objects i actors) plan frame.now
        ≡ spec.invoke_task core.now (amid heap.now.objects i actors) (relieved frame.now) node.now.children node.now.kind) }
    ensures fits { IfOk result (λ plan. PlanFits plan (length frame.now.stack)) }
{
    let NodeKind::Call(name) = &node.kind else {
        return Ok(Plan::Lacks(Lack::Value));
    };
    let Some(this) = frame.stack.top() else {
        return Ok(Plan::Lacks(Lack::Value));
    };
    let count = node.children.len().max(1);
    let Some(arguments) = arguments_below(&frame.stack, count) else {
        return Ok(Plan::Lacks(Lack::Value));
    };
    plan_call(alloc, core, heap, actors, *name, this, arguments)
}
