//! `events SRC SCHED`: the events of a run.
ghost use Rattle.std.specs.Prelude.{◌≤◌, length};
ghost use Rattle.pc_run.specs.Spreading.{spread};
ghost use Rattle.pc_sched.specs.Schedules.{turn_limit, total};
ghost use Rattle.pc_semantics.specs.Safety.{Safe};
ghost use Rattle.pc_refusals.specs.Inner.Stages.{StageEnds};
ghost use Rattle.pc_commands.specs.Events.{EventsTelling};

use pc_base::List;
use pc_core::Core;
use pc_refusals::{Stop, make_many_actors_line, make_too_long_line};
use pc_run_events::{accepted_events, write_events};
use pc_sched::Turn;
use pc_sched_lines::steps_of;
use pc_trace::AcceptedFault;
use std::alloc::Global;

// The text for the run of a list, for the schedule with this name.
fn tell_list(alloc: Global, name: &str, core: &Core, list: &[u32]) -> Result<List<u8>, Stop>
    requires safe { Safe core.now }
    requires few { length list.now ≤ turn_limit }
    ensures { StageEnds (EventsTelling name.now core.now list.now) result }
{
    match accepted_events(alloc, core, list) {
        Ok(events) => Ok(write_events(alloc, core, events.as_slice())?),
        Err(AcceptedFault::TooLong(step)) => Err(Stop::Refused {
            status: 12,
            line: make_too_long_line(alloc, name, step)?,
        }),
        Err(AcceptedFault::TooMany(step)) => Err(Stop::Refused {
            status: 8,
            line: make_many_actors_line(alloc, name, step)?,
        }),
        Err(AcceptedFault::Memory) => Err(Stop::Memory),
    }
}

/// Each event of the run of a safe core by the turns of the schedule with this name that is more than a plain step, with
/// its clock, as lines. It stops as `trace_turns` does.
pub fn tell_turns(alloc: Global, name: &str, core: &Core, turns: &[Turn]) -> Result<List<u8>, Stop>
    requires safe { Safe core.now }
    requires few { total turns.now ≤ turn_limit }
    ensures { StageEnds (EventsTelling name.now core.now (spread turns.now)) result }
{
    let list = steps_of(alloc, turns)?;
    tell_list(alloc, name, core, list.as_slice())
}
