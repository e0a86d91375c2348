//! `play SRC SEED`.
ghost use Rattle.std.specs.Prelude.{◌≡◌, ◌≤◌};
ghost use Rattle.pc_base.specs.Lists.{Text};
ghost use Rattle.pc_args.specs.Line.{IsSeed};
ghost use Rattle.pc_io.specs.Sink.{change};
ghost use Rattle.pc_refusals.specs.Inner.Answering.{EndsCommand};
ghost use Rattle.pc_refusals.specs.Verdict.{files_change, named};
ghost use Rattle.pc_top.specs.Commands.Play.{IsPlay};
ghost use Rattle.pc_top.specs.Shapes.{UnreadNumbered};

use crate::laws::cores_of_sources_are_formed;
use crate::numbered::accept_numbered;
use pc_args::seed_of;
use pc_commands::play_core;
use pc_io::{Files, Sink};
use pc_refusals::Stop;
use pc_types::accepted_never_lacks;
use std::alloc::Global;

/// Runs a source by the list of steps that a seed chooses, without keeping the list: writes the texts that are printed,
/// and the line of the run's numbers.
pub fn play_source<F: Files, O: Sink>(
    alloc: Global,
    files: &mut F,
    out: &mut O,
    source: &str,
    seed: &str,
) -> Result<(), Stop>
    ensures later { (n : Text) → F.faults files.old n ≤ F.faults files.new n }
    ensures same { (n : Text) → F.bytes files.new n ≡ F.bytes files.old n }
    ensures out_later { O.faults out.old ≤ O.faults out.new }
    ensures ends { let files = files_change (F.bytes files.old) (F.faults files.old) (F.faults files.new) (F.taken files.new) in
        EndsCommand (IsPlay (named files source.now) seed.now) (UnreadNumbered (IsSeed seed.now) (named files source.now))
        (change (O.written out.old) (O.written out.new) (O.faults out.old) (O.faults out.new)) result }
{
    cores_of_sources_are_formed();
    accepted_never_lacks();
    let read = accept_numbered(alloc, files, source, seed_of(seed))?;
    play_core(alloc, out, source, &read.accepted.source.core, read.number)
}
