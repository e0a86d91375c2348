//! Sources whose core has a derivation: the stages of `check` except for the text, which other commands go through too.
ghost use Rattle.std.specs.Prelude.{◌≡◌, ◌≤◌, ℕ, List as Sequence};
ghost use Rattle.pc_refusals.specs.Source.{AcceptedStage, source_limit};
ghost use Rattle.pc_refusals.specs.Inner.Stages.{PartEnds};
ghost use Rattle.pc_refusals.specs.Verdict.{file_at, text_as};

use crate::source::{read_source, take_source};
use pc_io::{Bytes, Files};
use pc_refusals::{Accepted, Stop, type_source};
use std::alloc::Global;

/// Reads the source with this name, goes through its stages, and then looks for its core's annotation.
pub fn accept_source<F: Files>(alloc: Global, files: &mut F, name: &str) -> Result<Accepted, Stop>
    ensures later { (n : Sequence ℕ) → F.faults files.old n ≤ F.faults files.new n }
    ensures same { (n : Sequence ℕ) → F.bytes files.new n ≡ F.bytes files.old n }
    ensures stage { PartEnds source_limit (AcceptedStage name.now)
        (file_at (F.bytes files.old) (F.faults files.old) (F.faults files.new) (F.taken files.new) name.now) result }
{
    let source = read_source(alloc, files, name)?;
    type_source(alloc, name, source)
}

/// The same for a text that is in no file, taken as the source with this name.
pub fn accept_text(alloc: Global, name: &str, bytes: Bytes) -> Result<Accepted, Stop>
    ensures { PartEnds source_limit (AcceptedStage name.now) (text_as name.now bytes) result }
{
    let source = take_source(alloc, name, bytes)?;
    type_source(alloc, name, source)
}
