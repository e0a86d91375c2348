//! `run SRC SCHED`.
ghost use Rattle.std.specs.Prelude.{◌≡◌, ◌≤◌};
ghost use Rattle.pc_base.specs.Lists.{Text};
ghost use Rattle.pc_io.specs.Sink.{change};
ghost use Rattle.pc_refusals.specs.Inner.Answering.{EndsCommand};
ghost use Rattle.pc_refusals.specs.Verdict.{files_change, named};
ghost use Rattle.pc_top.specs.Commands.Run.{IsRun};
ghost use Rattle.pc_top.specs.Shapes.{UnreadScheduled};

use crate::laws::cores_of_sources_are_formed;
use crate::scheduled::read_scheduled;
use pc_commands::run_turns;
use pc_io::{Files, Sink};
use pc_refusals::Stop;
use pc_types::accepted_never_lacks;
use std::alloc::Global;

/// Runs a source by a schedule: writes the texts that are printed, and the line of the run's numbers.
pub fn run_source<F: Files, O: Sink>(
    alloc: Global,
    files: &mut F,
    out: &mut O,
    source: &str,
    schedule: &str,
) -> Result<(), Stop>
    ensures later { (n : Text) → F.faults files.old n ≤ F.faults files.new n }
    ensures same { (n : Text) → F.bytes files.new n ≡ F.bytes files.old n }
    ensures out_later { O.faults out.old ≤ O.faults out.new }
    ensures ends { let files = files_change (F.bytes files.old) (F.faults files.old) (F.faults files.new) (F.taken files.new) in
        EndsCommand (IsRun (named files source.now) (named files schedule.now)) (UnreadScheduled (named files source.now) (named files schedule.now))
        (change (O.written out.old) (O.written out.new) (O.faults out.old) (O.faults out.new)) result }
{
    cores_of_sources_are_formed();
    accepted_never_lacks();
    let read = read_scheduled(alloc, files, source, schedule)?;
    run_turns(
        alloc,
        out,
        schedule,
        &read.accepted.source.core,
        read.turns.as_slice(),
    )
}
