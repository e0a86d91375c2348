//! `outcomes SRC COUNT`.
ghost use Rattle.std.specs.Prelude.{◌≡◌, ◌≤◌};
ghost use Rattle.pc_base.specs.Lists.{Text};
ghost use Rattle.pc_refusals.specs.Inner.Answering.{AnswersText};
ghost use Rattle.pc_refusals.specs.Verdict.{files_change, named};
ghost use Rattle.pc_commands.specs.Outcomes.{IsCount};
ghost use Rattle.pc_top.specs.Commands.Outcomes.{IsOutcomes};
ghost use Rattle.pc_top.specs.Shapes.{UnreadNumbered};

use crate::laws::cores_of_sources_are_formed;
use crate::numbered::accept_numbered;
use pc_base::List;
use pc_commands::{count_of, write_outcomes};
use pc_io::Files;
use pc_refusals::Stop;
use pc_types::accepted_never_lacks;
use std::alloc::Global;

/// Plays a source by the seeds below a count: returns each different outcome once, in the order of first seeds, with
/// the number of seeds that have it.
pub fn tell_outcomes<F: Files>(
    alloc: Global,
    files: &mut F,
    source: &str,
    count: &str,
) -> Result<List<u8>, Stop>
    ensures later { (n : Text) → F.faults files.old n ≤ F.faults files.new n }
    ensures same { (n : Text) → F.bytes files.new n ≡ F.bytes files.old n }
    ensures answers { let files = files_change (F.bytes files.old) (F.faults files.old) (F.faults files.new) (F.taken files.new) in
        AnswersText (IsOutcomes (named files source.now) count.now) (UnreadNumbered (IsCount count.now) (named files source.now)) result }
{
    cores_of_sources_are_formed();
    accepted_never_lacks();
    let read = accept_numbered(alloc, files, source, count_of(count))?;
    write_outcomes(
        alloc,
        source,
        &read.accepted.source.core,
        read.number as u32,
    )
}
