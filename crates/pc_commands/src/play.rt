//! `play SRC SEED`: the run of the list that a seed chooses.
ghost use Rattle.std.specs.Prelude.{◌≤◌};
ghost use Rattle.pc_io.specs.Sink.{change};
ghost use Rattle.pc_run.specs.Ends.{NeverLacks};
ghost use Rattle.pc_refusals.specs.Inner.Answering.{EndsCommand};
ghost use Rattle.pc_commands.specs.Play.{RanChosen};

use pc_core::Core;
use pc_io::Sink;
use pc_play::play;
use pc_refusals::{Stop, make_too_long_line};
use pc_run::RunFault;
use std::alloc::Global;

/// Runs a core, none of whose steps lacks anything, by the list that a seed chooses, without keeping the list. A line on
/// err names the source by this name. It stops as `run_turns` does.
pub fn play_core<O: Sink>(
    alloc: Global,
    out: &mut O,
    name: &str,
    core: &Core,
    seed: u64,
) -> Result<(), Stop>
    requires never_lacks { NeverLacks core.now }
    ensures later { O.faults out.old ≤ O.faults out.new }
    ensures ends { EndsCommand (RanChosen name.now seed core.now) (λ n. ⊥)
        (change (O.written out.old) (O.written out.new) (O.faults out.old) (O.faults out.new)) result }
{
    match play(alloc, core, seed, out) {
        Ok(_) => Ok(()),
        Err(RunFault::TooLong(step)) => Err(Stop::Refused {
            status: 12,
            line: make_too_long_line(alloc, name, step as u64)?,
        }),
        Err(RunFault::Sink) => Err(Stop::Sink),
        Err(RunFault::Memory) => Err(Stop::Memory),
    }
}
