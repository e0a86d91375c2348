//! The start of a core's program.
ghost use Rattle.std.specs.Prelude.{◌≡◌, ◌<◌, ◌∷◌, [], Some, IsSome, IfOk, OnOk};
ghost use Rattle.pc_heap.specs.declared.value.Value.TheVariants.{At};
ghost use Rattle.std.specs.FinMap.{empty, insert, len};
ghost use Rattle.pc_heap.specs.Heaps.{object_limit};
ghost use Rattle.pc_heap.specs.Objects.{next_address, with_value};
ghost use Rattle.pc_heap.specs.Fields.{field_at};
ghost use Rattle.pc_semantics.specs.Configurations as spec;
ghost use Rattle.pc_machine.specs.States.{configuration_of};

use crate::actors::{Actors, idle_actor, waiting_actor};
use crate::arguments::message_of;
use crate::lookups::fields_of;
use crate::state::State;
use pc_base::List;
use pc_core::Core;
use pc_heap::{Address, Heap, Value};
use pc_semantics::main_create;
use pc_tree::{ENV_ENTITY, OUT_STREAM_ENTITY};
use std::alloc::{AllocError, Global};

// An object of an entity, without field values, made by an actor.
fn add_object(core: &Core, heap: &mut Heap, maker: u32, entity: u32) -> Result<Address, AllocError>
    requires { len heap.old.objects < object_limit }
    ensures address { IfOk result (λ a. a ≡ next_address heap.old.objects maker) }
    ensures objects { IfOk result (λ a. heap.new.objects ≡ insert heap.old.objects a (spec.blank_object core.now entity)) }
{
    let fields = fields_of(core, entity);
    heap.reserve(maker, fields)?;
    Ok(heap.make(maker, entity, fields))
}

// The first field of the environment gets the stream.
fn set_out(heap: &mut Heap, environment: Address, stream: Address)
    requires { IsSome (field_at heap.old.objects environment 0) }
    ensures { heap.new.objects ≡ with_value heap.old.objects environment 0 (At stream) }
{
    if heap.set(environment, 0, Value::At(stream)).is_err() {
        unreachable!()
    }
}

// Adds the objects of the stream, of the environment and of Main, by the number of its entity, to a heap that has none.
fn add_objects(core: &Core, heap: &mut Heap, main: u32) -> Result<(), AllocError>
    requires { heap.old.objects ≡ empty }
    ensures { OnOk result (heap.new.objects ≡ (spec.start_of core.now (Some (main, 0))).objects) }
{
    core.formed();
    let stream = add_object(core, heap, 0, OUT_STREAM_ENTITY)?;
    let environment = add_object(core, heap, 0, ENV_ENTITY)?;
    set_out(heap, environment, stream);
    add_object(core, heap, 1, main)?;
    Ok(())
}

// The same objects, and no others.
fn start_objects(alloc: Global, core: &Core, main: u32) -> Result<Heap, AllocError>
    ensures { IfOk result (λ heap. heap.objects ≡ (spec.start_of core.now (Some (main, 0))).objects) }
{
    let mut heap = Heap::new(alloc);
    add_objects(core, &mut heap, main)?;
    Ok(heap)
}

// The stream, and Main with the message of its constructor.
fn start_actors(alloc: Global, create: u32) -> Result<Actors, AllocError>
    ensures { IfOk result (λ actors. actors ≡
        record { mailbox = []; frames = [] }
        ∷ record { mailbox = record { method = create; arguments = At spec.environment_address ∷ [] } ∷ []; frames = [] } ∷ []) }
{
    let environment = Value::At(Address {
        maker: 0,
        serial: 1,
    });
    let message = message_of(alloc, create, &[environment])?;
    let mut actors = Actors::new(alloc);
    actors.add(idle_actor(alloc))?;
    actors.add(waiting_actor(alloc, message)?)?;
    Ok(actors)
}

/// The start of a core's program.
pub fn start_state(alloc: Global, core: &Core) -> Result<State, AllocError>
    ensures { IfOk result (λ state. configuration_of state ≡ spec.start core.now) }
{
    let Some((main, create)) = main_create(core) else {
        return Ok(State {
            heap: Heap::new(alloc),
            actors: Actors::new(alloc),
            printed: List::new(alloc),
        });
    };
    let actors = start_actors(alloc, create)?;
    let heap = start_objects(alloc, core, main)?;
    Ok(State {
        heap,
        actors,
        printed: List::new(alloc),
    })
}
