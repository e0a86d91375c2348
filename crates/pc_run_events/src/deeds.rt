//! What a step did.
ghost use Rattle.std.specs.Prelude.{◌≡◌};
ghost use Rattle.pc_run_events.specs.Turns as spec;
ghost use Rattle.pc_semantics.specs.Configurations as safety;

use crate::events::Deed;
use crate::sight::{Sight, oldest_method};
use pc_heap::{Address, Value};
use pc_machine::Machine;
use pc_semantics::Ahead;

// The address of the object that a value is.
fn address_of(value: &Value) -> Option<Address>
    ensures { result ≡ safety.address_of value.now }
{
    match value {
        Value::At(address) => Some(*address),
        Value::Num(_) | Value::Truth(_) | Value::Text(_) | Value::Prim(_) => None,
    }
}

// The address of `this` in the method that an actor is in.
fn this_of(machine: &Machine<'_>, actor: u32) -> Option<Address>
    ensures { result ≡ spec.this_of machine.now.configuration actor }
{
    let found = machine.actor(actor)?;
    let frame = found.frames.top()?;
    address_of(frame.slots.get(0)?)
}

// The object whose constructor an actor has begun, if there are more objects than this.
fn object_made(machine: &Machine<'_>, actor: u32, before: u64) -> Option<Deed>
    ensures { result ≡ spec.object_made before machine.now.configuration actor }
{
    if before < machine.objects() {
        let address = this_of(machine, actor)?;
        let entity = machine.class_of(address)?;
        Some(Deed::New { address, entity })
    } else {
        None
    }
}

// What a task did that sent no message and made no actor.
fn task_deed(machine: &Machine<'_>, actor: u32, seen: &Sight) -> Option<Deed>
    ensures { result ≡ spec.task_deed seen.now.access (spec.object_made seen.now.objects machine.now.configuration actor) }
{
    match seen.access {
        Some(access) => Some(Deed::Touch(access)),
        None => object_made(machine, actor, seen.objects),
    }
}

/// What a step of an actor did, given what was known of it before and the machine after it. A message that it took was
/// sent at this place.
pub fn deed_after(machine: &Machine<'_>, actor: u32, seen: &Sight, sent: u64) -> Option<Deed>
    ensures { result ≡ spec.deed_after seen.now machine.now.configuration actor sent }
{
    match seen.ahead {
        Ahead::Take => {
            let method = seen.method?;
            Some(Deed::Take { method, sent })
        }
        Ahead::Send(receiver) => {
            let method = seen.method?;
            Some(Deed::Send { receiver, method })
        }
        Ahead::Spawn => {
            let method = oldest_method(machine, seen.actors)?;
            let actor = seen.actors;
            Some(Deed::Make { actor, method })
        }
        Ahead::Task => task_deed(machine, actor, seen),
        Ahead::Skipped | Ahead::Lacks | Ahead::TooLong => None,
    }
}
