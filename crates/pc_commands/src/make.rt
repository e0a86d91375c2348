//! `make SEED SIZE`: the numbers among its words, and the run of the core of the program that is made of them.
ghost use Rattle.std.specs.Prelude.{◌≤◌};
ghost use Rattle.pc_io.specs.Sink.{change};
ghost use Rattle.pc_run.specs.Ends.{NeverLacks};
ghost use Rattle.pc_refusals.specs.Inner.Answering.{EndsCommand};
ghost use Rattle.pc_commands.specs.Make.{RanMade};
ghost use Rattle.pc_commands.specs.Numbers.{ReadsNumbers};

use crate::run::run_turns;
use pc_args::{seed_of, size_of};
use pc_core::Core;
use pc_gen::schedule_of;
use pc_io::Sink;
use pc_refusals::{Stop, make_counts_line, put_text};
use std::alloc::Global;

/// How lines name the schedule of a generated program.
const NAME: &str = "make";

/// The seed and the size that these words denote. There is none if one of them is not such a number.
pub fn read_numbers(seed: &str, size: &str) -> Option<(u64, u32)>
    ensures { ReadsNumbers seed.now size.now result }
{
    let seed = seed_of(seed)?;
    let size = size_of(size)?;
    Some((seed, size))
}

/// Writes the line of the numbers of a program that was generated for this seed and this size, from 1 to 900, and runs
/// its core, none of whose steps lacks anything, by its own schedule. It stops as `run_turns` does, or because the sink
/// failed at the line.
pub fn run_generated<O: Sink>(
    alloc: Global,
    out: &mut O,
    seed: u64,
    size: u32,
    core: &Core,
) -> Result<(), Stop>
    requires some { 1 ≤ size }
    requires few { size ≤ 900 }
    requires never_lacks { NeverLacks core.now }
    ensures later { O.faults out.old ≤ O.faults out.new }
    ensures ends { EndsCommand (RanMade seed size core.now) (λ n. ⊥)
        (change (O.written out.old) (O.written out.new) (O.faults out.old) (O.faults out.new)) result }
{
    let turns = schedule_of(alloc, size)?;
    let line = make_counts_line(alloc, seed, size, core.nodes().len())?;
    put_text(out, line.as_slice())?;
    run_turns(alloc, out, NAME, core, turns.as_slice())
}
