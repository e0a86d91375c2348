//! `check SRC`.
ghost use Rattle.std.specs.Prelude.{◌≡◌, ◌≤◌};
ghost use Rattle.pc_base.specs.Lists.{Text};
ghost use Rattle.pc_refusals.specs.Inner.Answering.{AnswersText};
ghost use Rattle.pc_refusals.specs.Verdict.{FailedAt, files_change, named};
ghost use Rattle.pc_top.specs.Commands.Check.{IsCheck};

use crate::accepting::accept_source;
use crate::laws::cores_of_sources_are_formed;
use pc_base::List;
use pc_commands::write_derivation;
use pc_io::Files;
use pc_refusals::Stop;
use std::alloc::Global;

/// Checks the source with this name, and returns the text of its derivation.
pub fn check_source<F: Files>(alloc: Global, files: &mut F, source: &str) -> Result<List<u8>, Stop>
    ensures later { (n : Text) → F.faults files.old n ≤ F.faults files.new n }
    ensures same { (n : Text) → F.bytes files.new n ≡ F.bytes files.old n }
    ensures answers { let files = files_change (F.bytes files.old) (F.faults files.old) (F.faults files.new) (F.taken files.new) in
        AnswersText (IsCheck (named files source.now)) (FailedAt (named files source.now)) result }
{
    cores_of_sources_are_formed();
    let accepted = accept_source(alloc, files, source)?;
    let text = write_derivation(alloc, accepted)?;
    Ok(text)
}
