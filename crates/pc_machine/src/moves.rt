//! Plans are carried out.
ghost use Rattle.std.specs.Prelude.{◌≡◌, ◌+◌, ◌<◌, ◌≤◌, ◌^◌, length, slice_get, IfOk, IfSome, OnOk, OnErr};
ghost use Rattle.std.specs.FinMap.{len};
ghost use Rattle.pc_heap.specs.Heaps.{object_limit, field_limit};
ghost use Rattle.pc_machine.specs.Changed.{changed, framed, frames_of, messages_in};
ghost use Rattle.pc_machine.specs.Plans.{given, frames_changed, planned, PlanFits, ReachesActor, Suits};
ghost use Rattle.pc_machine.specs.States.{configuration_of, IsPeopled};

use crate::actors::{Actors, waiting_actor};
use crate::frames::{change_frames, place_top};
use crate::plan::{Change, Plan};
use crate::state::State;
use pc_heap::Value;
use pc_semantics::{Frame, Message, Outcome, Stack};
use pc_tree::NONE_ENTITY;
use std::alloc::{AllocError, Global};

// The frames of a running actor change. An `Err` leaves them as they were.
fn change_actor(
    alloc: Global,
    actors: &mut Actors,
    actor: usize,
    change: Change,
) -> Result<(), AllocError>
    requires running { 0 < length (frames_of actors.old actor) }
    requires suits { IfSome (slice_get (frames_of actors.old actor) 0) (λ f. Suits change (length f.stack)) }
    ensures ok { OnOk result
        (actors.new ≡ changed actors.old actor (framed (frames_changed change (frames_of actors.old actor)))) }
    ensures err { OnErr result (actors.new ≡ actors.old) }
{
    let mut frames = actors.swap_frames(actor, Stack::new(alloc));
    match change_frames(alloc, &mut frames, change) {
        Ok(()) => {
            let _ = actors.swap_frames(actor, frames);
            Ok(())
        }
        Err(error) => {
            let _ = actors.swap_frames(actor, frames);
            Err(error)
        }
    }
}

// A running actor goes on with a value in place of the topmost ones.
fn place_for(alloc: Global, actors: &mut Actors, actor: usize, count: usize, value: Value)
    requires running { 0 < length (frames_of actors.old actor) }
    requires some { 0 < count }
    requires enough { IfSome (slice_get (frames_of actors.old actor) 0) (λ f. count ≤ length f.stack) }
    ensures { actors.new ≡ changed actors.old actor (framed (given count value (frames_of actors.old actor))) }
{
    let mut frames = actors.swap_frames(actor, Stack::new(alloc));
    place_top(&mut frames, count, value);
    let _ = actors.swap_frames(actor, frames);
}

// The frames of a running actor change, and nothing else.
fn change_only(
    alloc: Global,
    state: &mut State,
    actor: u32,
    change: Change,
) -> Result<Outcome, AllocError>
    requires running { 0 < length (frames_of state.old.actors actor) }
    requires suits { IfSome (slice_get (frames_of state.old.actors actor) 0) (λ f. Suits change (length f.stack)) }
    ensures ok { IfOk result (λ o. (o, configuration_of state.new)
        ≡ planned (configuration_of state.old) actor (Plan.Changes change)) }
    ensures err { OnErr result (configuration_of state.new ≡ configuration_of state.old) }
{
    change_actor(alloc, &mut state.actors, actor as usize, change)?;
    Ok(Outcome::Moved)
}

// A message goes to an actor.
fn send(
    alloc: Global,
    state: &mut State,
    actor: u32,
    count: usize,
    receiver: u32,
    message: Message,
) -> Result<Outcome, AllocError>
    requires running { 0 < length (frames_of state.old.actors actor) }
    requires some { 0 < count }
    requires enough { IfSome (slice_get (frames_of state.old.actors actor) 0) (λ f. count ≤ length f.stack) }
    requires there { receiver < length state.old.actors }
    requires few { messages_in state.old.actors + 1 < 2 ^ 32 }
    ensures ok { IfOk result (λ o. (o, configuration_of state.new)
        ≡ planned (configuration_of state.old) actor (Plan.Sends count receiver message)) }
    ensures err { OnErr result (configuration_of state.new ≡ configuration_of state.old) }
{
    state.actors.deliver(receiver as usize, message)?;
    let actor = actor as usize;
    place_for(
        alloc,
        &mut state.actors,
        actor,
        count,
        Value::Prim(NONE_ENTITY),
    );
    Ok(Outcome::Moved)
}

// An object is made, and its constructor begins, in a frame that has a place for `this`.
fn make(
    alloc: Global,
    state: &mut State,
    actor: u32,
    count: usize,
    entity: u32,
    fields: u32,
    frame: Frame,
) -> Result<Outcome, AllocError>
    requires running { 0 < length (frames_of state.old.actors actor) }
    requires small { fields ≤ field_limit }
    requires slots { 0 < length frame.slots }
    requires few { len state.old.heap.objects < object_limit }
    ensures ok { IfOk result (λ o. (o, configuration_of state.new)
        ≡ planned (configuration_of state.old) actor (Plan.Makes count entity fields frame)) }
    ensures err { OnErr result (configuration_of state.new ≡ configuration_of state.old) }
{
    state.heap.reserve(actor, fields)?;
    let mut callee = frame;
    let this = Value::At(state.heap.reserved());
    drop(callee.slots.put(0, this)?);
    let change = Change::Enters {
        count,
        frame: callee,
    };
    change_actor(alloc, &mut state.actors, actor as usize, change)?;
    let _ = state.heap.make(actor, entity, fields);
    Ok(Outcome::Moved)
}

// An actor is made, with its object and its first message.
fn spawn(
    alloc: Global,
    state: &mut State,
    actor: u32,
    count: usize,
    entity: u32,
    fields: u32,
    message: Message,
) -> Result<Outcome, AllocError>
    requires running { 0 < length (frames_of state.old.actors actor) }
    requires enough { IfSome (slice_get (frames_of state.old.actors actor) 0) (λ f. count ≤ length f.stack) }
    requires small { fields ≤ field_limit }
    requires few { len state.old.heap.objects < object_limit }
    requires few_messages { messages_in state.old.actors + 1 < 2 ^ 32 }
    requires peopled { IsPeopled (configuration_of state.old) }
    ensures ok { IfOk result (λ o. (o, configuration_of state.new)
        ≡ planned (configuration_of state.old) actor (Plan.Spawns count entity fields message)) }
    ensures err { OnErr result (configuration_of state.new ≡ configuration_of state.old) }
{
    let number = state.actors.len() as u32;
    state.heap.reserve(number, fields)?;
    state.actors.add(waiting_actor(alloc, message)?)?;
    let value = Value::At(state.heap.reserved());
    let change = Change::Gives { count, value };
    match change_actor(alloc, &mut state.actors, actor as usize, change) {
        Ok(()) => {
            let _ = state.heap.make(number, entity, fields);
            Ok(Outcome::Moved)
        }
        Err(error) => {
            state.actors.withdraw();
            Err(error)
        }
    }
}

/// Carries out what a running actor is about to do. An `Err` leaves the configuration as it was.
pub fn make_move(
    alloc: Global,
    state: &mut State,
    actor: u32,
    plan: Plan,
) -> Result<Outcome, AllocError>
    requires running { 0 < length (frames_of state.old.actors actor) }
    requires fits { IfSome (slice_get (frames_of state.old.actors actor) 0) (λ f. PlanFits plan (length f.stack)) }
    requires reaches { ReachesActor plan (length state.old.actors) }
    requires few { len state.old.heap.objects < object_limit }
    requires few_messages { messages_in state.old.actors + 1 < 2 ^ 32 }
    requires peopled { IsPeopled (configuration_of state.old) }
    ensures ok { IfOk result (λ o. (o, configuration_of state.new) ≡ planned (configuration_of state.old) actor plan) }
    ensures err { OnErr result (configuration_of state.new ≡ configuration_of state.old) }
{
    match plan {
        Plan::Lacks(lack) => Ok(Outcome::Lacks(lack)),
        Plan::Changes(change) => change_only(alloc, state, actor, change),
        Plan::Makes {
            count,
            entity,
            fields,
            frame,
        } => make(alloc, state, actor, count, entity, fields, frame),
        Plan::Spawns {
            count,
            entity,
            fields,
            message,
        } => spawn(alloc, state, actor, count, entity, fields, message),
        Plan::Sends {
            count,
            receiver,
            message,
        } => send(alloc, state, actor, count, receiver, message),
    }
}
