//! A source that must be accepted, and then a schedule.
ghost use Rattle.std.specs.Prelude.{◌≡◌, ◌≤◌};
ghost use Rattle.pc_base.specs.Lists.{Text};
ghost use Rattle.pc_refusals.specs.Verdict.{files_change};
ghost use Rattle.pc_top.specs.Inner.Scheduling.{ScheduledEnds};

use crate::accepting::accept_source;
use pc_base::List;
use pc_io::Files;
use pc_refusals::{Accepted, Stop, read_schedule};
use pc_sched::Turn;
use std::alloc::Global;

/// An accepted source and the turns of a schedule.
#[derive(Drop)]
pub struct Scheduled {
    /// The source, with its core and its annotation.
    pub accepted: Accepted,
    /// The turns, in order.
    pub turns: List<Turn>,
}

/// Reads the source with this name, which must be accepted, and then the schedule with this name.
pub fn read_scheduled<F: Files>(
    alloc: Global,
    files: &mut F,
    source: &str,
    schedule: &str,
) -> Result<Scheduled, Stop>
    ensures later { (n : Text) → F.faults files.old n ≤ F.faults files.new n }
    ensures same { (n : Text) → F.bytes files.new n ≡ F.bytes files.old n }
    ensures reads { ScheduledEnds (files_change (F.bytes files.old) (F.faults files.old) (F.faults files.new) (F.taken files.new)) source.now schedule.now result }
{
    let accepted = accept_source(alloc, files, source)?;
    let turns = read_schedule(alloc, files, schedule)?;
    Ok(Scheduled { accepted, turns })
}
