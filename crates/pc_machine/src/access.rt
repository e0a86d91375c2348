//! What an actor is about to touch.
ghost use Rattle.std.specs.Prelude.{◌≡◌, []};
ghost use Rattle.pc_semantics.specs.Safety as spec;
ghost use Rattle.pc_semantics.specs.Configurations as configurations;
ghost use Rattle.pc_machine.specs.States.{configuration_of};

use crate::state::State;
use pc_core::Core;
use pc_heap::{Address, Heap, Value};
use pc_semantics::{Access, Frame, Task};

// The address of the object that a value is.
fn address_of(value: &Value) -> Option<Address>
    ensures { result ≡ configurations.address_of value.now }
{
    match value {
        Value::At(address) => Some(*address),
        Value::Num(_) | Value::Truth(_) | Value::Text(_) | Value::Prim(_) => None,
    }
}

// The name of the field that a task reads or writes, and whether it writes.
fn touched_name(core: &Core, task: Task) -> Option<(u32, bool)>
    ensures { result ≡ spec.touched_name core.now task }
{
    match task {
        Task::Get(number) => {
            let node = core.node_at(number)?;
            let name = node.kind.field_read()?;
            Some((name, false))
        }
        Task::Put(number) => {
            let node = core.node_at(number)?;
            let name = node.kind.field_written()?;
            Some((name, true))
        }
        Task::Eval(_)
        | Task::Store(_)
        | Task::Make(_)
        | Task::Spawn(_)
        | Task::Invoke(_)
        | Task::Apply(_)
        | Task::Test(_)
        | Task::Branch(_)
        | Task::Loop(_)
        | Task::Discard
        | Task::Return => None,
    }
}

// The field of the object on top of a frame's stack.
fn access_on(core: &Core, heap: &Heap, frame: &Frame, name: u32, write: bool) -> Option<Access>
    ensures { result
        ≡ spec.access_of core.now (record { objects = heap.now.objects; actors = []; printed = [] }) frame.now (name, write) }
{
    let value = frame.stack.top()?;
    let address = address_of(value)?;
    let entity = heap.class_of(address)?;
    let field = core.field(entity, name)?;
    Some(Access {
        address,
        field,
        write,
    })
}

/// The field of an object that the next task of an actor reads or writes. `None` iff there is none.
pub fn access_of(core: &Core, state: &State, actor: u32) -> Option<Access>
    ensures { result ≡ spec.access core.now (configuration_of state.now) actor }
{
    let found = state.actors.get(actor as usize)?;
    let frame = found.frames.top()?;
    let task = frame.tasks.top()?;
    let (name, write) = touched_name(core, task)?;
    access_on(core, &state.heap, frame, name, write)
}
