//! `make SEED SIZE`.
ghost use Rattle.std.specs.Prelude.{◌≤◌};
ghost use Rattle.pc_io.specs.Sink.{change};
ghost use Rattle.pc_refusals.specs.Source.{AcceptedStage, source_limit};
ghost use Rattle.pc_refusals.specs.Inner.Answering.{EndsCommand};
ghost use Rattle.pc_refusals.specs.Inner.Stages.{PartEnds};
ghost use Rattle.pc_refusals.specs.Verdict.{text_as};
ghost use Rattle.pc_commands.specs.Make.{made_name};
ghost use Rattle.pc_gen.specs.Generated.{generated_text};
ghost use Rattle.pc_top.specs.Commands.Make.{IsMade, IsMake};

use crate::accepting::accept_text;
use crate::laws::cores_of_sources_are_formed;
use pc_commands::{read_numbers, run_generated};
use pc_gen::make;
use pc_io::{Bytes, Sink};
use pc_print::print;
use pc_refusals::{Accepted, Stop, refuse_words};
use pc_types::accepted_never_lacks;
use std::alloc::Global;

/// How lines name the source of a generated program.
const NAME: &str = "make";

// Generates the program for this seed and this size, prints it, and takes the text through the stages of a source.
fn accept_made(alloc: Global, seed: u64, size: u32) -> Result<Accepted, Stop>
    requires some { 1 ≤ size }
    requires few { size ≤ 900 }
    ensures { PartEnds source_limit (AcceptedStage made_name) (text_as made_name (generated_text seed size)) result }
{
    let file = make(alloc, seed, size)?;
    let text = print(alloc, &file)?;
    drop(file);
    accept_text(alloc, NAME, Bytes::from_vec(text.into_vec()))
}

// Generates the program for this seed and this size, and runs it.
fn run_made<O: Sink>(alloc: Global, out: &mut O, seed: u64, size: u32) -> Result<(), Stop>
    requires some { 1 ≤ size }
    requires few { size ≤ 900 }
    ensures later { O.faults out.old ≤ O.faults out.new }
    ensures ends { EndsCommand (IsMade seed size) (λ n. ⊥)
        (change (O.written out.old) (O.written out.new) (O.faults out.old) (O.faults out.new)) result }
{
    cores_of_sources_are_formed();
    accepted_never_lacks();
    let accepted = accept_made(alloc, seed, size)?;
    run_generated(alloc, out, seed, size, &accepted.source.core)
}

/// Generates a program from a number and runs it: writes the line of its numbers, and then what the run writes.
pub fn make_program<O: Sink>(alloc: Global, out: &mut O, seed: &str, size: &str) -> Result<(), Stop>
    ensures later { O.faults out.old ≤ O.faults out.new }
    ensures ends { EndsCommand (IsMake seed.now size.now) (λ n. ⊥)
        (change (O.written out.old) (O.written out.new) (O.faults out.old) (O.faults out.new)) result }
{
    match read_numbers(seed, size) {
        Some((seed, size)) => run_made(alloc, out, seed, size),
        None => Err(refuse_words(alloc)),
    }
}
