//! An idle actor takes its oldest message.
ghost use Rattle.std.specs.Prelude.{◌≡◌, ◌<◌, [], slice_get, IfOk, OnErr, IsSomeAnd};
ghost use Rattle.pc_core.specs.CoreData.{CoreData};
ghost use Rattle.pc_semantics.specs.Step.{step};
ghost use Rattle.pc_machine.specs.States.{configuration_of};
ghost use Rattle.pc_machine.specs.Taken.{only_text, frame_begun};

use crate::frames::begin_frame;
use crate::state::State;
use pc_base::List;
use pc_core::Core;
use pc_heap::{Address, Value};
use pc_semantics::{Frame, Lack, Message, Outcome, Stack};
use std::alloc::{AllocError, Global};

// A copy of the text that a message asks to print. `None` iff its arguments are not one text.
fn text_in(alloc: Global, message: &Message) -> Result<Option<List<u8>>, AllocError>
    ensures { IfOk result (λ text. text ≡ only_text message.now.arguments) }
{
    match message.arguments.as_slice() {
        [Value::Text(text)] => Ok(Some(text.to_list(alloc)?)),
        _ => Ok(None),
    }
}

// The frame that a message begins. `None` iff it has no method with a body.
fn frame_of(
    alloc: Global,
    core: &Core,
    actor: u32,
    message: &Message,
) -> Result<Option<Frame>, AllocError>
    ensures { IfOk result (λ frame. frame ≡ frame_begun core.now actor message.now) }
{
    let Some(method) = core.method_at(message.method) else {
        return Ok(None);
    };
    let Some(body) = method.body else {
        return Ok(None);
    };
    let this = Value::At(Address {
        maker: actor,
        serial: 0,
    });
    let arguments = message.arguments.as_slice();
    Ok(Some(begin_frame(alloc, message.method, method, this, arguments, body)?))
}

// Actor 0 prints the text of its oldest message, whatever the core.
fn print_oldest(alloc: Global, state: &mut State) -> Result<Outcome, AllocError>
    requires { IsSomeAnd (slice_get state.old.actors 0) (λ a. a.frames ≡ []) }
    ensures ok { IfOk result (λ o. (core : CoreData) → (o, configuration_of state.new) ≡ step core (configuration_of state.old) 0) }
    ensures err { OnErr result (configuration_of state.new ≡ configuration_of state.old) }
{
    let Some(stream) = state.actors.get(0) else {
        return Ok(Outcome::Skipped);
    };
    let Some(message) = stream.mailbox.oldest() else {
        return Ok(Outcome::Skipped);
    };
    let Some(text) = text_in(alloc, message)? else {
        return Ok(Outcome::Lacks(Lack::Value));
    };
    state.printed.push(text)?;
    state.actors.take(0);
    Ok(Outcome::Moved)
}

// Another actor begins the method of its oldest message.
fn begin_oldest(
    alloc: Global,
    core: &Core,
    state: &mut State,
    actor: u32,
) -> Result<Outcome, AllocError>
    requires other { 0 < actor }
    requires idle { IsSomeAnd (slice_get state.old.actors actor) (λ a. a.frames ≡ []) }
    ensures ok { IfOk result (λ o. (o, configuration_of state.new) ≡ step core.now (configuration_of state.old) actor) }
    ensures err { OnErr result (configuration_of state.new ≡ configuration_of state.old) }
{
    let Some(taker) = state.actors.get(actor as usize) else {
        return Ok(Outcome::Skipped);
    };
    let Some(message) = taker.mailbox.oldest() else {
        return Ok(Outcome::Skipped);
    };
    let Some(frame) = frame_of(alloc, core, actor, message)? else {
        return Ok(Outcome::Lacks(Lack::Method));
    };
    let mut frames = Stack::new(alloc);
    frames.push(frame)?;
    state.actors.take(actor as usize);
    drop(state.actors.swap_frames(actor as usize, frames));
    Ok(Outcome::Moved)
}

/// The step of an idle actor: it takes its oldest message, if one waits.
pub fn take(
    alloc: Global,
    core: &Core,
    state: &mut State,
    actor: u32,
) -> Result<Outcome, AllocError>
    requires { IsSomeAnd (slice_get state.old.actors actor) (λ a. a.frames ≡ []) }
    ensures ok { IfOk result (λ o. (o, configuration_of state.new) ≡ step core.now (configuration_of state.old) actor) }
    ensures err { OnErr result (configuration_of state.new ≡ configuration_of state.old) }
{
    if actor == 0 {
        print_oldest(alloc, state)
    } else {
        begin_oldest(alloc, core, state, actor)
    }
}
