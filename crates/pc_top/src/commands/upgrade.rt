//! `upgrade SRC DERIV`.
ghost use Rattle.std.specs.Prelude.{◌≡◌, ◌≤◌};
ghost use Rattle.pc_base.specs.Lists.{Text};
ghost use Rattle.pc_refusals.specs.Inner.Answering.{AnswersText};
ghost use Rattle.pc_refusals.specs.Verdict.{files_change, named};
ghost use Rattle.pc_top.specs.Commands.Upgrade.{IsUpgrade};
ghost use Rattle.pc_top.specs.Shapes.{UnreadDerivation};

use crate::source::read_source;
use pc_base::List;
use pc_commands::upgrade_annotation;
use pc_io::Files;
use pc_refusals::{Stop, read_derivation};
use std::alloc::Global;

/// Judges a derivation of a source, which is read as a whole, and returns the text of its annotation in version 2. The
/// derivation may be in either version.
pub fn upgrade_derivation<F: Files>(
    alloc: Global,
    files: &mut F,
    source: &str,
    derivation: &str,
) -> Result<List<u8>, Stop>
    ensures later { (n : Text) → F.faults files.old n ≤ F.faults files.new n }
    ensures same { (n : Text) → F.bytes files.new n ≡ F.bytes files.old n }
    ensures answers { let files = files_change (F.bytes files.old) (F.faults files.old) (F.faults files.new) (F.taken files.new) in
        AnswersText (IsUpgrade (named files source.now) (named files derivation.now)) (UnreadDerivation (named files source.now) (named files derivation.now)) result }
{
    let read = read_source(alloc, files, source)?;
    let ann = read_derivation(alloc, files, derivation)?;
    upgrade_annotation(alloc, source, derivation, read, &ann)
}
