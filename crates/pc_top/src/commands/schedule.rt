//! `schedule SRC SEED`.
ghost use Rattle.std.specs.Prelude.{◌≡◌, ◌≤◌};
ghost use Rattle.pc_base.specs.Lists.{Text};
ghost use Rattle.pc_args.specs.Line.{IsSeed};
ghost use Rattle.pc_refusals.specs.Inner.Answering.{AnswersText};
ghost use Rattle.pc_refusals.specs.Verdict.{files_change, named};
ghost use Rattle.pc_top.specs.Commands.Schedule.{IsSchedule};
ghost use Rattle.pc_top.specs.Shapes.{UnreadNumbered};

use crate::numbered::accept_numbered;
use pc_args::seed_of;
use pc_base::List;
use pc_commands::write_chosen;
use pc_io::Files;
use pc_refusals::Stop;
use std::alloc::Global;

/// Chooses the steps of a source by a seed: returns their list as one line of a schedule.
pub fn choose_schedule<F: Files>(
    alloc: Global,
    files: &mut F,
    source: &str,
    seed: &str,
) -> Result<List<u8>, Stop>
    ensures later { (n : Text) → F.faults files.old n ≤ F.faults files.new n }
    ensures same { (n : Text) → F.bytes files.new n ≡ F.bytes files.old n }
    ensures answers { let files = files_change (F.bytes files.old) (F.faults files.old) (F.faults files.new) (F.taken files.new) in
        AnswersText (IsSchedule (named files source.now) seed.now) (UnreadNumbered (IsSeed seed.now) (named files source.now)) result }
{
    let read = accept_numbered(alloc, files, source, seed_of(seed))?;
    let text = write_chosen(alloc, &read.accepted.source.core, read.number)?;
    Ok(text)
}
