//! Reading and writing fields, and storing in slots.
ghost use Rattle.std.specs.Prelude.{◌≡◌, ◌<◌, length, slice_get, Some, IfOk, OnErr};
ghost use Rattle.pc_semantics.specs.Configurations.{pop};
ghost use Rattle.pc_semantics.specs.Calls as spec;
ghost use Rattle.pc_semantics.specs.Parts as parts;
ghost use Rattle.pc_semantics.specs.Parts.{at_node};
ghost use Rattle.pc_tasks.specs.Inside.{seeing, relieved, within, ended};

use crate::values::none;
use pc_core::Core;
use pc_heap::{Heap, Value};
use pc_semantics::{Frame, Lack, Outcome};
use std::alloc::AllocError;

// The field with this name of the object on top is read.
fn read(core: &Core, heap: &Heap, frame: &mut Frame, name: u32) -> Result<Outcome, AllocError>
    requires { 0 < length frame.old.tasks }
    ensures ok { IfOk result (λ o. within frame.old (pop (relieved frame.old) (parts.get_from core.now (seeing heap.now.objects) name)) ≡ Some (o, frame.new)) }
    ensures err { OnErr result (frame.new ≡ frame.old) }
{
    let address = match frame.stack.top() {
        Some(Value::At(address)) => *address,
        Some(Value::Num(_) | Value::Truth(_) | Value::Text(_) | Value::Prim(_)) => return Ok(
            Outcome::Lacks(Lack::Object),
        ),
        None => return Ok(Outcome::Lacks(Lack::Value)),
    };
    let Some(entity) = heap.class_of(address) else {
        return Ok(Outcome::Lacks(Lack::Object));
    };
    let Some(field) = core.field(entity, name) else {
        return Ok(Outcome::Lacks(Lack::Field));
    };
    let Some(value) = heap.get(address, field) else {
        return Ok(Outcome::Lacks(Lack::Field));
    };
    let value = value.copy()?;
    drop(frame.stack.replace_top(value));
    let _ = frame.tasks.pop();
    Ok(Outcome::Moved)
}

/// The task Get of this node: the origin is replaced by the value of its field.
pub fn get(core: &Core, heap: &Heap, frame: &mut Frame, number: u32) -> Result<Outcome, AllocError>
    requires { 0 < length frame.old.tasks }
    ensures ok { IfOk result (λ o. within frame.old (at_node (slice_get core.now.nodes number) (λ x. spec.get_task core.now (seeing heap.now.objects) (relieved frame.old) x.kind)) ≡ Some (o, frame.new)) }
    ensures err { OnErr result (frame.new ≡ frame.old) }
{
    let Some(node) = core.node_at(number) else {
        return Ok(Outcome::Lacks(Lack::Value));
    };
    match node.kind.field_read() {
        Some(name) => read(core, heap, frame, name),
        None => Ok(Outcome::Lacks(Lack::Value)),
    }
}

// The value on top goes into the slot, and is replaced by the slot's old value, or None.
fn store_in(frame: &mut Frame, slot: u32) -> Result<Outcome, AllocError>
    requires { 0 < length frame.old.tasks }
    ensures ok { IfOk result (λ o. within frame.old (pop (relieved frame.old) (spec.store slot)) ≡ Some (o, frame.new)) }
    ensures err { OnErr result (frame.new ≡ frame.old) }
{
    if frame.stack.len() == 0 {
        return Ok(Outcome::Lacks(Lack::Value));
    }
    let value = frame.stack.replace_top(none());
    match frame.slots.put(slot as usize, value) {
        Ok(Some(before)) => {
            drop(frame.stack.replace_top(before));
        }
        Ok(None) => {}
        Err(refused) => {
            drop(frame.stack.replace_top(refused.value));
            return Err(AllocError);
        }
    }
    let _ = frame.tasks.pop();
    Ok(Outcome::Moved)
}

/// The task Store of this node: the value goes into the slot, and is replaced by the slot's old value, or None.
pub fn store(core: &Core, frame: &mut Frame, number: u32) -> Result<Outcome, AllocError>
    requires { 0 < length frame.old.tasks }
    ensures ok { IfOk result (λ o. within frame.old (at_node (slice_get core.now.nodes number) (λ x. spec.store_task (relieved frame.old) x.kind)) ≡ Some (o, frame.new)) }
    ensures err { OnErr result (frame.new ≡ frame.old) }
{
    let Some(node) = core.node_at(number) else {
        return Ok(Outcome::Lacks(Lack::Value));
    };
    match node.kind.stored_slot() {
        Some(slot) => store_in(frame, slot),
        None => Ok(Outcome::Lacks(Lack::Value)),
    }
}

// The field with this name of the object on top gets the value below it.
fn write(core: &Core, heap: &mut Heap, frame: &mut Frame, name: u32) -> Outcome
    requires { 0 < length frame.old.tasks }
    ensures end { ended heap.old.objects frame.old (pop (relieved frame.old) (λ o g. pop g (parts.put_into core.now (seeing heap.old.objects) name o))) ≡ Some (result, heap.new.objects, frame.new) }
    ensures room { heap.new.room ≡ heap.old.room }
{
    if frame.stack.len() < 2 {
        return Outcome::Lacks(Lack::Value);
    }
    let Some(Value::At(address)) = frame.stack.top() else {
        return Outcome::Lacks(Lack::Object);
    };
    let address = *address;
    let Some(entity) = heap.class_of(address) else {
        return Outcome::Lacks(Lack::Object);
    };
    let Some(field) = core.field(entity, name) else {
        return Outcome::Lacks(Lack::Field);
    };
    let value = frame.stack.replace(1, none());
    match heap.set(address, field, value) {
        Ok(before) => {
            drop(frame.stack.pop());
            if let Some(before) = before {
                drop(frame.stack.replace_top(before));
            }
            let _ = frame.tasks.pop();
            Outcome::Moved
        }
        Err(value) => {
            drop(frame.stack.replace(1, value));
            Outcome::Lacks(Lack::Field)
        }
    }
}

/// The task Put of this node: the field gets the value, and the field's old value, or None, replaces the origin and the
/// value.
pub fn put(core: &Core, heap: &mut Heap, frame: &mut Frame, number: u32) -> Outcome
    requires { 0 < length frame.old.tasks }
    ensures end { ended heap.old.objects frame.old (at_node (slice_get core.now.nodes number) (λ x. spec.put_task core.now (seeing heap.old.objects) (relieved frame.old) x.kind)) ≡ Some (result, heap.new.objects, frame.new) }
    ensures room { heap.new.room ≡ heap.old.room }
{
    let Some(node) = core.node_at(number) else {
        return Outcome::Lacks(Lack::Value);
    };
    match node.kind.field_written() {
        Some(name) => write(core, heap, frame, name),
        None => Outcome::Lacks(Lack::Value),
    }
}
