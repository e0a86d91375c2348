//! `explain SRC`.
ghost use Rattle.std.specs.Prelude.{◌≡◌, ◌≤◌, IfErr, IfOk, length};
ghost use Rattle.pc_core_relation.specs.Files.{IsCoreOf};
ghost use Rattle.pc_elab.specs.Cores.{IsSpelledFile};
ghost use Rattle.pc_lex.specs.Pieces.{bytes_limit};
ghost use Rattle.pc_base.specs.Lists.{Text};
ghost use Rattle.pc_names.specs.Faults.{IsNotMemory};
ghost use Rattle.pc_places.specs.Text.{HasTokens};
ghost use Rattle.pc_refusals.specs.Inner.Answering.{AnswersText};
ghost use Rattle.pc_refusals.specs.Inner.Stages.{StageEnds};
ghost use Rattle.pc_refusals.specs.Verdict.{FailedAt, files_change, named, whole};
ghost use Rattle.pc_tree.specs.View.{file_view};
ghost use Rattle.pc_explain_command.specs.Explain.{Explaining, IsFileFault};
ghost use Rattle.pc_top.specs.Commands.Explain.{ExplainedStage, IsExplain};

use pc_base::List;
use pc_core::Core;
use pc_elab::elaborate;
use pc_explain_command::{explain_fault, write_core};
use pc_io::Files;
use pc_names::{NameFault, collect};
use pc_refusals::{SOURCE_LIMIT, Stop, parse_source, read_file};
use pc_text_order::tokens_are_in_order;
use pc_tree::File;
use std::alloc::Global;

// The core of a tree, or the fault because of which it has none.
fn core_of(alloc: Global, file: &File) -> Result<Core, NameFault>
    requires { IsSpelledFile (file_view file.now) }
    ensures core { IfOk result (IsCoreOf (file_view file.now)) }
    ensures fault { IfErr result (λ f. IsNotMemory f → IsFileFault (file_view file.now) f) }
{
    let names = collect(alloc, file)?;
    elaborate(alloc, file, &names)
}

// The text for the source with this name, these bytes and this tree.
fn explain_tree(alloc: Global, name: &str, bytes: &[u8], file: File) -> Result<List<u8>, Stop>
    requires short { length bytes.now ≤ bytes_limit }
    requires lexed { HasTokens bytes.now }
    requires spelled { IsSpelledFile (file_view file) }
    ensures { StageEnds (Explaining name.now bytes.now (file_view file)) result }
{
    match core_of(alloc, &file) {
        Ok(core) => {
            drop(file);
            Ok(write_core(alloc, name, bytes, &core)?)
        }
        Err(fault) => explain_fault(alloc, name, bytes, &file, fault),
    }
}

// Goes through the stages after its length.
fn explain_bytes(alloc: Global, name: &str, bytes: &[u8]) -> Result<List<u8>, Stop>
    requires { length bytes.now ≤ bytes_limit }
    ensures { StageEnds (ExplainedStage name.now (whole bytes.now)) result }
{
    tokens_are_in_order();
    let file = parse_source(alloc, name, bytes)?;
    explain_tree(alloc, name, bytes, file)
}

/// Explains what `check` reports about the source with this name: returns `accepted`, or the line of its refusal, with
/// the place in the source and the rule that is broken. A source that has no tree, or passes a limit, is refused as by
/// `check`.
pub fn explain_source<F: Files>(
    alloc: Global,
    files: &mut F,
    source: &str,
) -> Result<List<u8>, Stop>
    ensures later { (n : Text) → F.faults files.old n ≤ F.faults files.new n }
    ensures same { (n : Text) → F.bytes files.new n ≡ F.bytes files.old n }
    ensures answers { let files = files_change (F.bytes files.old) (F.faults files.old) (F.faults files.new) (F.taken files.new) in
        AnswersText (IsExplain (named files source.now)) (FailedAt (named files source.now)) result }
{
    let bytes = read_file(alloc, files, source, SOURCE_LIMIT)?;
    explain_bytes(alloc, source, bytes.as_slice())
}
