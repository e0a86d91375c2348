//! What the first task of a running frame is about to do.
ghost use Rattle.std.specs.Prelude.{◌≡◌, ℕ, length, slice_get, IfOk};
ghost use Rattle.pc_tasks.specs.Inside.{amid, first_move, IsInside};
ghost use Rattle.pc_machine.specs.Plans.{move_of, PlanFits};

use crate::calls::{plan_make, plan_spawn};
use crate::invocations::plan_invoke;
use crate::plan::Plan;
use crate::returns::plan_return;
use pc_core::Core;
use pc_heap::Heap;
use pc_semantics::{Frame, Lack, Task};
use std::alloc::{AllocError, Global};

/// What the first task of a frame is about to do, if it is not one inside the frame and there are this many actors.
pub fn plan_first(
    alloc: Global,
    core: &Core,
    heap: &Heap,
    actors: usize,
    frame: &Frame,
) -> Result<Plan, AllocError>
    requires { ¬ (IsInside (slice_get frame.now.tasks 0)) }
    ensures means { IfOk result (λ plan. (i : ℕ) → move_of (amid heap.now.objects i actors) plan frame.now
        ≡ first_move core.now (amid heap.now.objects i actors) frame.now (slice_get frame.now.tasks 0)) }
    ensures fits { IfOk result (λ plan. PlanFits plan (length frame.now.stack)) }
{
    let Some(task) = frame.tasks.top() else {
        return Ok(Plan::Lacks(Lack::Value));
    };
    match task {
        Task::Make(number) => match core.node_at(number) {
            Some(node) => plan_make(alloc, core, frame, node),
            None => Ok(Plan::Lacks(Lack::Value)),
        },
        Task::Spawn(number) => match core.node_at(number) {
            Some(node) => plan_spawn(alloc, core, frame, node),
            None => Ok(Plan::Lacks(Lack::Value)),
        },
        Task::Invoke(number) => match core.node_at(number) {
            Some(node) => plan_invoke(alloc, core, heap, actors, frame, node),
            None => Ok(Plan::Lacks(Lack::Value)),
        },
        Task::Return => plan_return(core, frame),
        Task::Eval(_)
        | Task::Get(_)
        | Task::Put(_)
        | Task::Store(_)
        | Task::Apply(_)
        | Task::Test(_)
        | Task::Branch(_)
        | Task::Loop(_)
        | Task::Discard => unreachable!(),
    }
}
