//! The first task of a frame.
ghost use Rattle.std.specs.Prelude.{◌≡◌, ◌↔◌, IsTrue, IfOk, OnErr, Some, slice_get};
ghost use Rattle.pc_tasks.specs.Inside.{IsInside, StaysInside, seeing, first_move, ended};

use crate::apply::apply;
use crate::choices::{branch, discard, go_round, test};
use crate::evaluation::evaluate_node;
use crate::fields::{get, put, store};
use pc_core::Core;
use pc_heap::Heap;
use pc_semantics::{Frame, Outcome, Task};
use std::alloc::{AllocError, Global};

/// Whether the first task of a frame concerns the frame and the objects alone: there is one, and it is not `Make`,
/// `Spawn`, `Invoke` or `Return`.
#[inline(always)]
pub fn is_inside(frame: &Frame) -> bool
    ensures { IsTrue result ↔ IsInside (slice_get frame.now.tasks 0) }
{
    match frame.tasks.top() {
        None => false,
        Some(Task::Make(_)) => false,
        Some(Task::Spawn(_)) => false,
        Some(Task::Invoke(_)) => false,
        Some(Task::Return) => false,
        Some(
            Task::Eval(_)
            | Task::Get(_)
            | Task::Put(_)
            | Task::Store(_)
            | Task::Apply(_)
            | Task::Test(_)
            | Task::Branch(_)
            | Task::Loop(_)
            | Task::Discard,
        ) => true,
    }
}

/// Does the first task of a frame, if it concerns the frame and the objects alone. It ends as the machine's definitions
/// state; if it does not move, or if memory runs out, the frame and the objects are unchanged.
#[tactic(auto, using(crate::proofs::Anyone::for_anyone))]
#[inline(always)]
pub fn run_inside(
    alloc: Global,
    core: &Core,
    heap: &mut Heap,
    frame: &mut Frame,
) -> Result<Outcome, AllocError>
    requires { IsInside (slice_get frame.old.tasks 0) }
    ensures ok { IfOk result (λ o. StaysInside core.now heap.old.objects frame.old o heap.new.objects frame.new) }
    ensures err { OnErr result ((frame.new ≡ frame.old) × (heap.new.objects ≡ heap.old.objects)) }
    ensures room { heap.new.room ≡ heap.old.room }
{
    run_task(alloc, core, heap, frame)
}

// The same for a task that only looks at the objects.
#[inline(always)]
fn run_task(
    alloc: Global,
    core: &Core,
    heap: &mut Heap,
    frame: &mut Frame,
) -> Result<Outcome, AllocError>
    requires { IsInside (slice_get frame.old.tasks 0) }
    ensures ok { IfOk result (λ o. ended heap.old.objects frame.old (first_move core.now (seeing heap.old.objects) frame.old (slice_get frame.old.tasks 0)) ≡ Some (o, heap.new.objects, frame.new)) }
    ensures err { OnErr result ((frame.new ≡ frame.old) × (heap.new.objects ≡ heap.old.objects)) }
    ensures room { heap.new.room ≡ heap.old.room }
{
    let Some(task) = frame.tasks.top() else {
        unreachable!()
    };
    match task {
        Task::Eval(n) => evaluate_node(core, frame, n),
        Task::Get(n) => get(core, heap, frame, n),
        Task::Put(n) => Ok(put(core, heap, frame, n)),
        Task::Store(n) => store(core, frame, n),
        Task::Apply(n) => apply(alloc, core, frame, n),
        Task::Test(n) => Ok(test(core, frame, n)),
        Task::Branch(n) => Ok(branch(core, frame, n)),
        Task::Loop(n) => go_round(core, frame, n),
        Task::Discard => Ok(discard(frame)),
        Task::Make(_) => unreachable!(),
        Task::Spawn(_) => unreachable!(),
        Task::Invoke(_) => unreachable!(),
        Task::Return => unreachable!(),
    }
}
