//! The stages of a schedule: its length and its turns.
ghost use Rattle.std.specs.Prelude.{◌≡◌, ◌≤◌, ℕ, List as Sequence, length};
ghost use Rattle.pc_sched.specs.Schedules.{schedule_limit};
ghost use Rattle.pc_refusals.specs.Verdict.{file_at};
ghost use Rattle.pc_refusals.specs.Source.{ScheduleStage, Scheduling};
ghost use Rattle.pc_refusals.specs.Inner.Stages.{PartEnds, StageEnds};

use crate::reading::read_file;
use crate::refusal::refuse_at;
use crate::stop::Stop;
use pc_base::List;
use pc_io::Files;
use pc_sched::{SchedFault, Turn, read};
use std::alloc::Global;

/// The greatest number of bytes of a schedule.
const SCHEDULE_LIMIT: u32 = 1_048_576;

/// Reads the schedule with this name and takes it through its stages.
pub fn read_schedule<F: Files>(alloc: Global, files: &mut F, name: &str) -> Result<List<Turn>, Stop>
    ensures later { (n : Sequence ℕ) → F.faults files.old n ≤ F.faults files.new n }
    ensures same { (n : Sequence ℕ) → F.bytes files.new n ≡ F.bytes files.old n }
    ensures stage { PartEnds schedule_limit (ScheduleStage name.now)
        (file_at (F.bytes files.old) (F.faults files.old) (F.faults files.new) (F.taken files.new) name.now) result }
{
    let bytes = read_file(alloc, files, name, SCHEDULE_LIMIT)?;
    read_turns(alloc, name, bytes.as_slice())
}

// The turns of these bytes of the schedule with this name.
fn read_turns(alloc: Global, name: &str, bytes: &[u8]) -> Result<List<Turn>, Stop>
    requires { length bytes.now ≤ schedule_limit }
    ensures { StageEnds (Scheduling name.now bytes.now) result }
{
    match read(alloc, bytes) {
        Ok(turns) => Ok(turns),
        Err(SchedFault::BadWord(at)) => Err(refuse_at(alloc, name, bytes, 7, at, "bad word")),
        Err(SchedFault::TooMany(at)) => {
            Err(refuse_at(alloc, name, bytes, 8, at, "too many steps"))
        }
        Err(SchedFault::Memory) => Err(Stop::Memory),
    }
}
