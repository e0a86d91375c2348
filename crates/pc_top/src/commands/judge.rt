//! `judge SRC DERIV`.
ghost use Rattle.std.specs.Prelude.{◌≡◌, ◌≤◌};
ghost use Rattle.pc_base.specs.Lists.{Text};
ghost use Rattle.pc_refusals.specs.Inner.Answering.{AnswersText};
ghost use Rattle.pc_refusals.specs.Verdict.{files_change, named};
ghost use Rattle.pc_top.specs.Commands.Judge.{IsJudge};
ghost use Rattle.pc_top.specs.Inner.Asking.{JudgeAsks};
ghost use Rattle.pc_top.specs.Shapes.{UnreadDerivation};

use crate::source::read_source;
use pc_base::List;
use pc_io::Files;
use pc_referee::Referee;
use pc_refusals::{Stop, judge_derivation};
use std::alloc::Global;

/// Judges a derivation of a source, and returns `accepted` if it is one.
pub fn judge_source<F: Files, R: Referee>(
    alloc: Global,
    files: &mut F,
    source: &str,
    derivation: &str,
    referee: &mut R,
) -> Result<List<u8>, Stop>
    ensures later { (n : Text) → F.faults files.old n ≤ F.faults files.new n }
    ensures same { (n : Text) → F.bytes files.new n ≡ F.bytes files.old n }
    ensures answers { let files = files_change (F.bytes files.old) (F.faults files.old) (F.faults files.new) (F.taken files.new) in
        AnswersText (IsJudge (named files source.now) (named files derivation.now)) (UnreadDerivation (named files source.now) (named files derivation.now)) result }
    ensures asks { JudgeAsks (F.bytes files.old source.now) (F.bytes files.old derivation.now) (R.asked referee.old) (R.asked referee.new) result }
{
    let read = read_source(alloc, files, source)?;
    judge_derivation(alloc, files, source, derivation, &read, referee)?;
    let text = List::from_slice(alloc, b"accepted\n")?;
    Ok(text)
}
