//! How a frame goes on.
ghost use Rattle.std.specs.Prelude.{◌≡◌, ◌<◌, length, Some, IfOk, OnOk, OnErr};
ghost use Rattle.pc_semantics.specs.Configurations.{Goes, pushed, doing};
ghost use Rattle.pc_tasks.specs.Inside.{relieved, within};

use pc_heap::Value;
use pc_semantics::{Frame, Outcome, Task};
use std::alloc::AllocError;

/// Pushes a value, which completes the first task. If memory runs out, nothing changes.
#[inline(always)]
pub fn push_value(frame: &mut Frame, value: Value) -> Result<Outcome, AllocError>
    requires { 0 < length frame.old.tasks }
    ensures ok { IfOk result (λ o. within frame.old (Goes (pushed (relieved frame.old) value)) ≡ Some (o, frame.new)) }
    ensures err { OnErr result (frame.new ≡ frame.old) }
{
    frame.stack.push(value)?;
    let _ = frame.tasks.pop();
    Ok(Outcome::Moved)
}

/// Replaces the first task by these tasks. If memory runs out, nothing changes.
pub fn go_on_with(frame: &mut Frame, tasks: &[Task]) -> Result<(), AllocError>
    requires { 0 < length frame.old.tasks }
    ensures ok { OnOk result (frame.new ≡ doing (relieved frame.old) tasks.now) }
    ensures err { OnErr result (frame.new ≡ frame.old) }
{
    let Some((last, front)) = tasks.split_last() else {
        let _ = frame.tasks.pop();
        return Ok(());
    };
    let before = frame.tasks.replace_top(*last);
    if let Err(refused) = frame.tasks.push_all(front) {
        let _ = frame.tasks.replace_top(before);
        return Err(refused);
    }
    Ok(())
}
