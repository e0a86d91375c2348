//! A run is traced.
ghost use Rattle.std.specs.Prelude.{◌≤◌, MatchResult, length};
ghost use Rattle.pc_semantics.specs.Safety.{Safe};
ghost use Rattle.pc_trace.specs.declared.touch.Verdict.TheVariants.{Ordered};
ghost use Rattle.pc_machine.specs.Limits.{list_limit};
ghost use Rattle.pc_trace.specs.Stops.{AcceptedStops, IsTraceOfRun, TraceStops};
ghost use Rattle.pc_trace.specs.Traces.{AllTouches, RanOn, VerdictIs};

use crate::clash::judged;
use crate::fault::{AcceptedFault, TraceFault};
use crate::recorder::recorded;
use crate::touch::{Touch, Trace};
use pc_base::List;
use pc_core::Core;
use std::alloc::Global;

/// The accesses of a run of a core in order, each with its clock, and whether those that conflict are ordered. The core
/// need not be safe. The list has at most 4,000,000 places.
///
/// # Errors
/// - `TooLong` and `Lacks` iff a step of the list ends the run in this way, with its place, counted from 1.
/// - `TooMany` iff a step would make the 65th actor, with its place. The first of these three counts.
/// - `Memory` if memory ran out.
pub fn trace(alloc: Global, core: &Core, list: &[u32]) -> Result<Trace, TraceFault>
    requires { length list.now ≤ list_limit }
    ensures { MatchResult result (IsTraceOfRun core.now list.now) (TraceStops core.now list.now) }
{
    let touches = recorded(alloc, core, list)?;
    let verdict = judged(alloc, touches.as_slice())?;
    Ok(Trace { touches, verdict })
}

/// The accesses of a run of a safe core in order, each with its clock. Those that conflict are ordered. The list has at
/// most 4,000,000 places.
///
/// # Errors
/// - `TooLong` iff a step of the list would make a text that is too long, with its place, counted from 1.
/// - `TooMany` iff a step would make the 65th actor, with its place. The first of these two counts.
/// - `Memory` if memory ran out.
pub fn accepted_trace(
    alloc: Global,
    core: &Core,
    list: &[u32],
) -> Result<List<Touch>, AcceptedFault>
    requires safe { Safe core.now }
    requires few { length list.now ≤ list_limit }
    ensures { MatchResult result (λ touches. RanOn core.now list.now × AllTouches core.now list.now touches × VerdictIs core.now list.now Ordered) (AcceptedStops core.now list.now) }
{
    match recorded(alloc, core, list) {
        Ok(touches) => Ok(touches),
        Err(TraceFault::TooLong(place)) => Err(AcceptedFault::TooLong(place)),
        Err(TraceFault::Lacks(_)) => unreachable!(),
        Err(TraceFault::TooMany(place)) => Err(AcceptedFault::TooMany(place)),
        Err(TraceFault::Memory) => Err(AcceptedFault::Memory),
    }
}
