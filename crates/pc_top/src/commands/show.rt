//! `show SRC`.
ghost use Rattle.std.specs.Prelude.{◌≡◌, ◌≤◌};
ghost use Rattle.pc_base.specs.Lists.{Text};
ghost use Rattle.pc_refusals.specs.Inner.Answering.{AnswersText};
ghost use Rattle.pc_refusals.specs.Verdict.{FailedAt, files_change, named};
ghost use Rattle.pc_top.specs.Commands.Show.{IsShow};

use pc_base::List;
use pc_io::Files;
use pc_print::print;
use pc_refusals::{SOURCE_LIMIT, Stop, parse_source, read_file};
use std::alloc::Global;

/// Shows the source with this name: returns the printed text of its tree.
pub fn show_source<F: Files>(alloc: Global, files: &mut F, source: &str) -> Result<List<u8>, Stop>
    ensures later { (n : Text) → F.faults files.old n ≤ F.faults files.new n }
    ensures same { (n : Text) → F.bytes files.new n ≡ F.bytes files.old n }
    ensures answers { let files = files_change (F.bytes files.old) (F.faults files.old) (F.faults files.new) (F.taken files.new) in
        AnswersText (IsShow (named files source.now)) (FailedAt (named files source.now)) result }
{
    let bytes = read_file(alloc, files, source, SOURCE_LIMIT)?;
    let file = parse_source(alloc, source, bytes.as_slice())?;
    let text = print(alloc, &file)?;
    Ok(text)
}
