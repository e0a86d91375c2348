//! `swap SRC SCHED PLACE`.
ghost use Rattle.std.specs.Prelude.{◌≡◌, ◌≤◌};
ghost use Rattle.pc_base.specs.Lists.{Text};
ghost use Rattle.pc_refusals.specs.Inner.Answering.{AnswersText};
ghost use Rattle.pc_refusals.specs.Verdict.{files_change, named};
ghost use Rattle.pc_top.specs.Commands.Swap.{IsSwap, IsSwapAt, UnreadSwap};
ghost use Rattle.pc_top.specs.Shapes.{UnreadScheduled};

use crate::laws::cores_of_sources_are_formed;
use crate::scheduled::read_scheduled;
use pc_base::List;
use pc_commands::{place_of, swap_scheduled};
use pc_io::Files;
use pc_refusals::{Stop, refuse_words};
use pc_regions::valid_is_safe;
use std::alloc::Global;

// The exchange at a place.
fn swap_at<F: Files>(
    alloc: Global,
    files: &mut F,
    source: &str,
    schedule: &str,
    place: u32,
) -> Result<List<u8>, Stop>
    requires first { 1 ≤ place }
    ensures later { (n : Text) → F.faults files.old n ≤ F.faults files.new n }
    ensures same { (n : Text) → F.bytes files.new n ≡ F.bytes files.old n }
    ensures answers { let files = files_change (F.bytes files.old) (F.faults files.old) (F.faults files.new) (F.taken files.new) in
        AnswersText (IsSwapAt (named files source.now) (named files schedule.now) place) (UnreadScheduled (named files source.now) (named files schedule.now)) result }
{
    cores_of_sources_are_formed();
    valid_is_safe();
    let read = read_scheduled(alloc, files, source, schedule)?;
    swap_scheduled(
        alloc,
        schedule,
        &read.accepted.source.core,
        read.turns.as_slice(),
        place,
    )
}

/// Exchanges the turns at a place of a schedule and at the next, if the two steps are apart: returns the new schedule
/// as one line, or the line that says why they keep their order.
pub fn swap_turns<F: Files>(
    alloc: Global,
    files: &mut F,
    source: &str,
    schedule: &str,
    place: &str,
) -> Result<List<u8>, Stop>
    ensures later { (n : Text) → F.faults files.old n ≤ F.faults files.new n }
    ensures same { (n : Text) → F.bytes files.new n ≡ F.bytes files.old n }
    ensures answers { let files = files_change (F.bytes files.old) (F.faults files.old) (F.faults files.new) (F.taken files.new) in
        AnswersText (IsSwap (named files source.now) (named files schedule.now) place.now) (UnreadSwap (named files source.now) (named files schedule.now) place.now) result }
{
    match place_of(place) {
        Some(place) => swap_at(alloc, files, source, schedule, place),
        None => Err(refuse_words(alloc)),
    }
}
