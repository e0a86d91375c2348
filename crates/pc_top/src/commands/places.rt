//! `places SRC`.
ghost use Rattle.std.specs.Prelude.{◌≡◌, ◌≤◌};
ghost use Rattle.pc_base.specs.Lists.{Text};
ghost use Rattle.pc_refusals.specs.Inner.Answering.{AnswersText};
ghost use Rattle.pc_refusals.specs.Verdict.{FailedAt, files_change, named};
ghost use Rattle.pc_top.specs.Commands.Places.{IsPlaces};

use crate::source::read_source;
use pc_base::List;
use pc_io::Files;
use pc_places::write_places;
use pc_refusals::Stop;
use std::alloc::Global;

/// Lists what the core of the source with this name has, and its places in the source: returns a line for each entity,
/// field, method, slot and node.
pub fn tell_places<F: Files>(alloc: Global, files: &mut F, source: &str) -> Result<List<u8>, Stop>
    ensures later { (n : Text) → F.faults files.old n ≤ F.faults files.new n }
    ensures same { (n : Text) → F.bytes files.new n ≡ F.bytes files.old n }
    ensures answers { let files = files_change (F.bytes files.old) (F.faults files.old) (F.faults files.new) (F.taken files.new) in
        AnswersText (IsPlaces (named files source.now)) (FailedAt (named files source.now)) result }
{
    let read = read_source(alloc, files, source)?;
    let text = write_places(alloc, read.bytes.as_slice(), &read.core)?;
    Ok(text)
}
