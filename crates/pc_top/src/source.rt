//! The source's stages: its length, its tokens, its tree and its core.
ghost use Rattle.std.specs.Prelude.{◌≡◌, ◌≤◌, ℕ, List as Sequence, length};
ghost use Rattle.pc_elab.specs.Cores.{IsSpelledFile};
ghost use Rattle.pc_lex.specs.Pieces.{bytes_limit};
ghost use Rattle.pc_tree.specs.View.{file_view};
ghost use Rattle.pc_refusals.specs.Inner.Stages.{PartEnds, StageEnds};
ghost use Rattle.pc_refusals.specs.Verdict.{file_at, text_as};
ghost use Rattle.pc_refusals.specs.Source.{CoreStage, Elaborating, SourceStage, source_limit};

use pc_core::Core;
use pc_elab::elaborate;
use pc_io::{Bytes, Files};
use pc_names::collect;
use pc_refusals::{
    SOURCE_LIMIT, Source, Stop, make_longer_line, parse_source, read_file, refuse_name,
};
use pc_text_order::tokens_are_in_order;
use pc_tree::File;
use std::alloc::Global;

/// Reads the source with this name and goes through its stages.
pub fn read_source<F: Files>(alloc: Global, files: &mut F, name: &str) -> Result<Source, Stop>
    ensures later { (n : Sequence ℕ) → F.faults files.old n ≤ F.faults files.new n }
    ensures same { (n : Sequence ℕ) → F.bytes files.new n ≡ F.bytes files.old n }
    ensures stage { PartEnds source_limit (SourceStage name.now)
        (file_at (F.bytes files.old) (F.faults files.old) (F.faults files.new) (F.taken files.new) name.now) result }
{
    let bytes = read_file(alloc, files, name, SOURCE_LIMIT)?;
    let core = read_core(alloc, name, bytes.as_slice())?;
    Ok(Source { bytes, core })
}

/// Takes a text that is in no file as the source with this name, and goes through its stages.
pub fn take_source(alloc: Global, name: &str, bytes: Bytes) -> Result<Source, Stop>
    ensures { PartEnds source_limit (SourceStage name.now) (text_as name.now bytes) result }
{
    if bytes.len() > SOURCE_LIMIT as usize {
        return Err(Stop::Refused {
            status: 8,
            line: make_longer_line(alloc, name, SOURCE_LIMIT)?,
        });
    }
    let core = read_core(alloc, name, bytes.as_slice())?;
    Ok(Source { bytes, core })
}

// Goes through the stages after its length. Its tokens are let go before its core is made.
fn read_core(alloc: Global, name: &str, bytes: &[u8]) -> Result<Core, Stop>
    requires { length bytes.now ≤ bytes_limit }
    ensures { StageEnds (CoreStage name.now bytes.now) result }
{
    tokens_are_in_order();
    let file = parse_source(alloc, name, bytes)?;
    elaborate_tree(alloc, name, bytes, &file)
}

// The core of the source with this name, these bytes and this tree.
fn elaborate_tree(alloc: Global, name: &str, bytes: &[u8], file: &File) -> Result<Core, Stop>
    requires { IsSpelledFile (file_view file.now) }
    ensures { StageEnds (Elaborating name.now bytes.now (file_view file.now)) result }
{
    let names = match collect(alloc, file) {
        Ok(names) => names,
        Err(fault) => return Err(refuse_name(alloc, name, bytes, fault)),
    };
    match elaborate(alloc, file, &names) {
        Ok(core) => Ok(core),
        Err(fault) => Err(refuse_name(alloc, name, bytes, fault)),
    }
}
