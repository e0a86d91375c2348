//! `sends SRC`.
ghost use Rattle.std.specs.Prelude.{◌≡◌, ◌≤◌};
ghost use Rattle.pc_base.specs.Lists.{Text};
ghost use Rattle.pc_refusals.specs.Inner.Answering.{AnswersText};
ghost use Rattle.pc_refusals.specs.Verdict.{FailedAt, files_change, named};
ghost use Rattle.pc_top.specs.Commands.Sends.{IsSends};

use crate::accepting::accept_source;
use pc_base::List;
use pc_commands::write_sends;
use pc_io::Files;
use pc_refusals::Stop;
use std::alloc::Global;

/// Lists who sends what in the source with this name, over every run at once: returns a line for each entity and each
/// method that its methods may send, and then a line for each behaviour and constructor of an actor that nothing ever
/// sends.
pub fn tell_sends<F: Files>(alloc: Global, files: &mut F, source: &str) -> Result<List<u8>, Stop>
    ensures later { (n : Text) → F.faults files.old n ≤ F.faults files.new n }
    ensures same { (n : Text) → F.bytes files.new n ≡ F.bytes files.old n }
    ensures answers { let files = files_change (F.bytes files.old) (F.faults files.old) (F.faults files.new) (F.taken files.new) in
        AnswersText (IsSends (named files source.now)) (FailedAt (named files source.now)) result }
{
    let accepted = accept_source(alloc, files, source)?;
    let text = write_sends(alloc, &accepted.source.core, &accepted.ann)?;
    Ok(text)
}
