//! `run SRC SCHED`: the run of a core.
ghost use Rattle.std.specs.Prelude.{◌≤◌};
ghost use Rattle.pc_io.specs.Sink.{change};
ghost use Rattle.pc_run.specs.Ends.{NeverLacks};
ghost use Rattle.pc_run.specs.Spreading.{spread};
ghost use Rattle.pc_sched.specs.Schedules.{turn_limit, total};
ghost use Rattle.pc_refusals.specs.Inner.Answering.{EndsCommand};
ghost use Rattle.pc_commands.specs.Run.{Ran};

use pc_core::Core;
use pc_io::Sink;
use pc_machine::start;
use pc_refusals::{Stop, make_too_long_line};
use pc_run::{RunFault, run};
use pc_sched::Turn;
use std::alloc::Global;

/// Runs a core, none of whose steps lacks anything, by the turns of the schedule with this name: writes the texts that
/// are printed, and the line of the run's numbers. It stops with 12 at a step whose text would be too long, after that
/// text was written; or because the sink failed, with a part of the text written, or memory ran out.
pub fn run_turns<O: Sink>(
    alloc: Global,
    out: &mut O,
    name: &str,
    core: &Core,
    turns: &[Turn],
) -> Result<(), Stop>
    requires few { total turns.now ≤ turn_limit }
    requires never_lacks { NeverLacks core.now }
    ensures later { O.faults out.old ≤ O.faults out.new }
    ensures ends { EndsCommand (Ran name.now core.now (spread turns.now)) (λ n. ⊥)
        (change (O.written out.old) (O.written out.new) (O.faults out.old) (O.faults out.new)) result }
{
    let mut machine = start(alloc, core)?;
    match run(alloc, &mut machine, turns, out) {
        Ok(_) => Ok(()),
        Err(RunFault::TooLong(step)) => Err(Stop::Refused {
            status: 12,
            line: make_too_long_line(alloc, name, step as u64)?,
        }),
        Err(RunFault::Sink) => Err(Stop::Sink),
        Err(RunFault::Memory) => Err(Stop::Memory),
    }
}
