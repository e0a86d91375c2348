//! A run: all turns are taken, and then its text is written.
ghost use Rattle.std.specs.Prelude.{◌≡◌, ◌≤◌, [], length, ℕ, List as Sequence};
ghost use Rattle.std.specs.FinMap.{len};
ghost use Rattle.pc_sched.specs.Schedules.{turn_limit, total};
ghost use Rattle.pc_semantics.specs.Configurations.{start};
ghost use Rattle.pc_semantics.specs.Text.{waiting};
ghost use Rattle.pc_run.specs.Ends.{NeverLacks, IsAnswer, Leaves, WritesText};
ghost use Rattle.pc_run.specs.Spreading.{spread};
ghost use Rattle.pc_run.specs.Underway.{ReachedSoFar};

use crate::counts::{Counts, Progress};
use crate::report::{Report, RunFault};
use crate::turns::take_turns;
use crate::writing::{put_summary, put_texts};
use pc_io::Sink;
use pc_machine::Machine;
use pc_sched::Turn;
use std::alloc::Global;

// The numbers of a run whose steps were taken.
fn report_of(machine: &Machine<'_>, counts: Counts) -> Report
    ensures { result ≡ record {
      moved = counts.moved;
      skipped = counts.skipped;
      actors = length machine.now.configuration.actors;
      objects = len machine.now.configuration.objects;
      waiting = waiting machine.now.configuration;
    } }
{
    Report {
        moved: counts.moved,
        skipped: counts.skipped,
        actors: machine.actors(),
        objects: machine.objects(),
        waiting: machine.waiting(),
    }
}

/// Writes what a run printed after all its steps were taken: each text with a line end in one call of `put`, and the
/// line of the run's numbers in one more. The contract holds for every list of steps whose run led to the machine's
/// configuration with this progress.
///
/// # Errors
/// - `TooLong(n)` if the n-th step would make a text that is too long. The texts are written, without the numbers.
/// - `Sink` only if the sink's count of failures rose in this call, or is at its last value. A prefix of the text was
///   written, and nothing after the piece that failed.
/// - `Memory` if memory ran out. A prefix of the text was written.
pub fn put_run<O: Sink>(
    alloc: Global,
    machine: &Machine<'_>,
    progress: Progress,
    out: &mut O,
) -> Result<Report, RunFault>
    ensures answers { (list : Sequence ℕ) → ReachedSoFar machine.now.core list machine.now.configuration [] progress → IsAnswer machine.now.core list (O.faults out.old) (O.faults out.new) result }
    ensures writes { (list : Sequence ℕ) → ReachedSoFar machine.now.core list machine.now.configuration [] progress → WritesText machine.now.core list (O.written out.old) (O.written out.new) result }
    ensures later { O.faults out.old ≤ O.faults out.new }
{
    put_texts(alloc, machine.printed().as_slice(), out)?;
    match progress {
        Progress::Going(counts) => {
            let report = report_of(machine, counts);
            put_summary(alloc, report, out)?;
            Ok(report)
        }
        Progress::TooLong(step) => Err(RunFault::TooLong(step)),
    }
}

/// Lets a machine that was just started take all turns, and then writes what was printed, each text with a line end in
/// one call of `put`, and the line of the run's numbers in one more. The times of the turns sum to at most 1,000,000,
/// and no step of the core lacks anything over any list of actors. The steps of a turn are counted, so that no list of
/// all steps is kept.
///
/// # Errors
/// - `TooLong(n)` if the n-th step of the turns, counted from 1, would make a text that is too long. The texts that
///   were printed before it are written, without the numbers.
/// - `Sink` only if the sink's count of failures rose in this call, or is at its last value. A prefix of the text was
///   written, and nothing after the piece that failed.
/// - `Memory` if memory ran out. A prefix of the text was written.
pub fn run<O: Sink>(
    alloc: Global,
    machine: &mut Machine<'_>,
    turns: &[Turn],
    out: &mut O,
) -> Result<Report, RunFault>
    requires started { machine.old.configuration ≡ start machine.old.core }
    requires few { total turns.now ≤ turn_limit }
    requires never_lacks { NeverLacks machine.old.core }

    // A report has the numbers of the run, and a fault has its cause.
    ensures answers { IsAnswer machine.old.core (spread turns.now) (O.faults out.old) (O.faults out.new) result }

    // The run's text is written, or a prefix of it.
    ensures writes { WritesText machine.old.core (spread turns.now) (O.written out.old) (O.written out.new) result }
    ensures later { O.faults out.old ≤ O.faults out.new }

    // The machine is left after the steps of the turns.
    ensures leaves { Leaves machine.old.core (spread turns.now) machine.new.configuration result }
    ensures core { machine.new.core ≡ machine.old.core }
{
    let progress = take_turns(machine, turns)?;
    put_run(alloc, machine, progress, out)
}
