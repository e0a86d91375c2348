//! `trace SRC SCHED`.
ghost use Rattle.std.specs.Prelude.{◌≡◌, ◌≤◌};
ghost use Rattle.pc_base.specs.Lists.{Text};
ghost use Rattle.pc_refusals.specs.Inner.Answering.{AnswersText};
ghost use Rattle.pc_refusals.specs.Verdict.{files_change, named};
ghost use Rattle.pc_top.specs.Commands.Trace.{IsTrace};
ghost use Rattle.pc_top.specs.Shapes.{UnreadScheduled};

use crate::laws::cores_of_sources_are_formed;
use crate::scheduled::read_scheduled;
use pc_base::List;
use pc_commands::trace_turns;
use pc_io::Files;
use pc_refusals::Stop;
use pc_regions::valid_is_safe;
use std::alloc::Global;

/// Runs a source by a schedule, and returns each access of the run to a field with its clock: for each actor, the
/// number of its events that are this one or come before it. Those that conflict are ordered.
pub fn trace_run<F: Files>(
    alloc: Global,
    files: &mut F,
    source: &str,
    schedule: &str,
) -> Result<List<u8>, Stop>
    ensures later { (n : Text) → F.faults files.old n ≤ F.faults files.new n }
    ensures same { (n : Text) → F.bytes files.new n ≡ F.bytes files.old n }
    ensures answers { let files = files_change (F.bytes files.old) (F.faults files.old) (F.faults files.new) (F.taken files.new) in
        AnswersText (IsTrace (named files source.now) (named files schedule.now)) (UnreadScheduled (named files source.now) (named files schedule.now)) result }
{
    cores_of_sources_are_formed();
    valid_is_safe();
    let read = read_scheduled(alloc, files, source, schedule)?;
    trace_turns(
        alloc,
        schedule,
        &read.accepted.source.core,
        read.turns.as_slice(),
    )
}
