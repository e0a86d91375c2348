//! One step of an actor.
ghost use Rattle.std.specs.Prelude.{◌≡◌, ◌<◌, IfOk, OnErr};
ghost use Rattle.std.specs.FinMap.{len};
ghost use Rattle.pc_heap.specs.Heaps.{object_limit};
ghost use Rattle.pc_semantics.specs.Step.{step};
ghost use Rattle.pc_machine.specs.Changed.{messages_in};
ghost use Rattle.pc_machine.specs.Machines.{message_limit};
ghost use Rattle.pc_machine.specs.States.{configuration_of, IsPeopled};

use crate::inside::run_frame;
use crate::moves::make_move;
use crate::planning::plan_first;
use crate::state::State;
use crate::take::take;
use pc_core::Core;
use pc_semantics::Outcome;
use pc_tasks::is_inside;
use std::alloc::{AllocError, Global};

/// The step of an actor. An `Err` leaves the configuration as it was.
#[inline(always)]
pub fn advance(
    alloc: Global,
    core: &Core,
    state: &mut State,
    actor: u32,
) -> Result<Outcome, AllocError>
    requires objects { len state.old.heap.objects < object_limit }
    requires messages { messages_in state.old.actors < message_limit }
    requires peopled { IsPeopled (configuration_of state.old) }
    ensures ok { IfOk result (λ o. (o, configuration_of state.new) ≡ step core.now (configuration_of state.old) actor) }
    ensures err { OnErr result (configuration_of state.new ≡ configuration_of state.old) }
{
    let Some(found) = state.actors.get(actor as usize) else {
        return Ok(Outcome::Skipped);
    };
    let Some(frame) = found.frames.top() else {
        return take(alloc, core, state, actor);
    };
    if is_inside(frame) {
        return run_frame(alloc, core, state, actor);
    }
    let plan = plan_first(alloc, core, &state.heap, state.actors.len(), frame)?;
    make_move(alloc, state, actor, plan)
}
