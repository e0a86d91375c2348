//! The tasks that concern one frame and the objects alone. The frame stays in place among all frames while its task is
//! done.
ghost use Rattle.std.specs.Prelude.{◌≡◌, drop, slice_get, IfOk, IfSome, OnErr, IsSomeAnd};
ghost use Rattle.pc_semantics.specs.Step.{step};
ghost use Rattle.pc_tasks.specs.Inside.{IsInside};
ghost use Rattle.pc_machine.specs.Changed.{frames_of};
ghost use Rattle.pc_machine.specs.Ran.{RanFrames, RanAt};
ghost use Rattle.pc_machine.specs.States.{configuration_of};

use crate::state::State;
use pc_core::Core;
use pc_heap::Heap;
use pc_semantics::{Actor, Frame, Outcome, Stack};
use pc_tasks::run_inside;
use std::alloc::{AllocError, Global};

// The first task of the running frame is done.
#[inline(always)]
fn run_top(
    alloc: Global,
    core: &Core,
    heap: &mut Heap,
    frames: &mut Stack<Frame>,
) -> Result<Outcome, AllocError>
    requires { IsSomeAnd (slice_get frames.old 0) (λ f. IsInside (slice_get f.tasks 0)) }
    ensures ok { IfOk result (λ o. IfSome (slice_get frames.old 0)
        (λ f. RanFrames core.now heap.old.objects f (drop 1 frames.old) o heap.new.objects frames.new)) }
    ensures objects { OnErr result (heap.new.objects ≡ heap.old.objects) }
    ensures frames { OnErr result (frames.new ≡ frames.old) }
{
    run_inside(alloc, core, heap, frames.top_mut())
}

/// The first task of the running frame of one of these actors is done. An `Err` changes nothing.
#[inline(always)]
pub fn run_in(
    alloc: Global,
    core: &Core,
    heap: &mut Heap,
    all: &mut Vec<Actor>,
    actor: usize,
) -> Result<Outcome, AllocError>
    requires { IsSomeAnd (slice_get (frames_of all.old.items actor) 0) (λ f. IsInside (slice_get f.tasks 0)) }
    ensures ok { IfOk result (λ o. RanAt core.now heap.old.objects all.old.items actor o heap.new.objects all.new.items) }
    ensures objects { OnErr result (heap.new.objects ≡ heap.old.objects) }
    ensures actors { OnErr result (all.new.items ≡ all.old.items) }
{
    let running = &mut all[actor];
    run_top(alloc, core, heap, &mut running.frames)
}

/// The step of an actor whose first task concerns its running frame and the objects alone.
#[inline(always)]
pub fn run_frame(
    alloc: Global,
    core: &Core,
    state: &mut State,
    actor: u32,
) -> Result<Outcome, AllocError>
    requires { IsSomeAnd (slice_get (frames_of state.old.actors actor) 0) (λ f. IsInside (slice_get f.tasks 0)) }
    ensures ok { IfOk result (λ o. (o, configuration_of state.new) ≡ step core.now (configuration_of state.old) actor) }
    ensures err { OnErr result (configuration_of state.new ≡ configuration_of state.old) }
{
    state
        .actors
        .run_frame(alloc, core, &mut state.heap, actor as usize)
}
