//! The events of a run of a safe core.
ghost use Rattle.std.specs.Prelude.{◌≤◌, MatchResult, length};
ghost use Rattle.pc_machine.specs.Limits.{list_limit};
ghost use Rattle.pc_run_events.specs.Events.{AllEvents, touches_in};
ghost use Rattle.pc_run_events.specs.Lines.{AllNamed};
ghost use Rattle.pc_semantics.specs.Safety.{Safe};
ghost use Rattle.pc_trace.specs.Stops.{AcceptedStops};
ghost use Rattle.pc_trace.specs.Traces.{AllTouches, RanOn, VerdictIs};
ghost use Rattle.pc_trace.specs.declared.touch.Verdict.TheVariants.{Ordered};

use crate::events::RunEvent;
use crate::recorder::recorded;
use pc_base::List;
use pc_core::Core;
use pc_trace::{AcceptedFault, TraceFault};
use std::alloc::Global;

/// The events of a run of a safe core that are more than plain steps, in order, each with its clock. The accesses among
/// them are those that `pc_trace` reports, and those that conflict are ordered. The methods and entities that they name
/// exist and have names. The list has at most 4,000,000 places.
///
/// # Errors
/// - `TooLong` iff a step of the list would make a text that is too long, with its place, counted from 1.
/// - `TooMany` iff a step would make the 65th actor, with its place. The first of these two counts.
/// - `Memory` if memory ran out.
pub fn accepted_events(
    alloc: Global,
    core: &Core,
    list: &[u32],
) -> Result<List<RunEvent>, AcceptedFault>
    requires safe { Safe core.now }
    requires few { length list.now ≤ list_limit }
    ensures { MatchResult result
        (λ events. RanOn core.now list.now × AllEvents core.now list.now events × AllTouches core.now list.now (touches_in events) × VerdictIs core.now list.now Ordered × AllNamed core.now events)
        (AcceptedStops core.now list.now) }
{
    core.formed();
    match recorded(alloc, core, list) {
        Ok(events) => Ok(events),
        Err(TraceFault::TooLong(place)) => Err(AcceptedFault::TooLong(place)),
        Err(TraceFault::Lacks(_)) => unreachable!(),
        Err(TraceFault::TooMany(place)) => Err(AcceptedFault::TooMany(place)),
        Err(TraceFault::Memory) => Err(AcceptedFault::Memory),
    }
}
