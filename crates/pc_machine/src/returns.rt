//! What the end of a method is about to do.
ghost use Rattle.std.specs.Prelude.{◌≡◌, length, slice_get, Some, IfOk};
ghost use Rattle.pc_semantics.specs.Configurations.{Around};
ghost use Rattle.pc_semantics.specs.Parts.{return_task};
ghost use Rattle.pc_tasks.specs.Inside.{relieved};
ghost use Rattle.pc_machine.specs.Plans.{move_of, PlanFits};

use crate::plan::{Change, Plan};
use pc_core::{Core, MethodKind};
use pc_heap::Value;
use pc_semantics::{Frame, Lack};
use std::alloc::AllocError;

// A copy of a value is left.
fn plan_leave(value: &Value) -> Result<Plan, AllocError>
    ensures { IfOk result (λ plan. plan ≡ Plan.Changes (Change.Leaves (Some value.now))) }
{
    Ok(Plan::Changes(Change::Leaves(Some(value.copy()?))))
}

/// What the task Return of a frame is about to do.
pub fn plan_return(core: &Core, frame: &Frame) -> Result<Plan, AllocError>
    ensures means { IfOk result (λ plan. (around : Around) → move_of around plan frame.now
        ≡ return_task (relieved frame.now) (slice_get core.now.methods frame.now.method)) }
    ensures fits { IfOk result (λ plan. PlanFits plan (length frame.now.stack)) }
{
    let Some(method) = core.method_at(frame.method) else {
        return Ok(Plan::Lacks(Lack::Method));
    };
    match method.kind {
        MethodKind::Fun => match frame.stack.top() {
            Some(value) => plan_leave(value),
            None => Ok(Plan::Lacks(Lack::Value)),
        },
        MethodKind::New => match frame.slots.get(0) {
            Some(this) => plan_leave(this),
            None => Ok(Plan::Lacks(Lack::Slot)),
        },
        MethodKind::Be | MethodKind::Spawn => Ok(Plan::Changes(Change::Leaves(None))),
    }
}
