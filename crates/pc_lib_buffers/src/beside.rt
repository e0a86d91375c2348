//! The texts of a call, each with the name that lines use for it.
ghost use Rattle.std.specs.Prelude.{◌≡◌, List, ℕ, Some, codes, IfOk, OnOk, if◌then◌else◌};
ghost use Rattle.std.specs.Str.{bytes_eq};
ghost use Rattle.pc_io.specs.Entries.{held};
ghost use Rattle.pc_lib_buffers.specs.Holding.{AddsBeside, HoldsTexts};

use pc_io::NeverFiles;
use std::alloc::{AllocError, Global};

/// What a command is given besides its source.
#[derive(Clone, Copy, Debug)]
pub enum Beside<'a> {
    /// No other text.
    Nothing,
    /// A derivation's text.
    Derivation(&'a [u8]),
    /// A schedule's text.
    Schedule(&'a [u8]),
}

// Adds the text beside the source.
fn add_beside(files: &mut NeverFiles, beside: Beside<'_>) -> Result<(), AllocError>
    ensures { OnOk result (AddsBeside files.old.entries files.new.entries beside.entry) }
{
    match beside {
        Beside::Nothing => Ok(()),
        Beside::Derivation(bytes) => files.add("derivation", bytes),
        Beside::Schedule(bytes) => files.add("schedule", bytes),
    }
}

/// The texts as files.
pub fn make_files(
    alloc: Global,
    source: &[u8],
    beside: Beside<'_>,
) -> Result<NeverFiles, AllocError>
    ensures { IfOk result (λ files. HoldsTexts files.entries source.now beside.entry) }
{
    let mut files = NeverFiles::new(alloc);
    files.add("source", source)?;
    add_beside(&mut files, beside)?;
    Ok(files)
}
