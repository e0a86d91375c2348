//! A number among the words, and then a source that must be accepted.
ghost use Rattle.std.specs.Prelude.{◌≡◌, ◌≤◌};
ghost use Rattle.pc_base.specs.Lists.{Text};
ghost use Rattle.pc_refusals.specs.Verdict.{files_change};
ghost use Rattle.pc_top.specs.Inner.Numbering.{NumberedEnds};

use crate::accepting::accept_source;
use pc_io::Files;
use pc_refusals::{Accepted, Stop, refuse_words};
use std::alloc::Global;

/// An accepted source and a number.
#[derive(Drop)]
pub struct Numbered {
    /// The source, with its core and its annotation.
    pub accepted: Accepted,
    /// The number that a word denotes.
    pub number: u64,
}

/// Refuses words without a number, and then reads the source with this name, which must be accepted.
pub fn accept_numbered<F: Files>(
    alloc: Global,
    files: &mut F,
    source: &str,
    number: Option<u64>,
) -> Result<Numbered, Stop>
    ensures later { (n : Text) → F.faults files.old n ≤ F.faults files.new n }
    ensures same { (n : Text) → F.bytes files.new n ≡ F.bytes files.old n }
    ensures reads { NumberedEnds (files_change (F.bytes files.old) (F.faults files.old) (F.faults files.new) (F.taken files.new)) source.now number result }
{
    let number = match number {
        Some(number) => number,
        None => return Err(refuse_words(alloc)),
    };
    let accepted = accept_source(alloc, files, source)?;
    Ok(Numbered { accepted, number })
}
