//! The reading of a command's files.
ghost use Rattle.std.specs.Prelude.{◌≡◌, ◌≤◌, ℕ, List};
ghost use Rattle.pc_refusals.specs.Inner.Reading.{ReadsFile};

use crate::lines::make_longer_line;
use crate::stop::Stop;
use pc_io::{Bytes, FileFault, Files};
use std::alloc::Global;

/// Reads a file whole, or refuses it by its length.
pub fn read_file<F: Files>(
    alloc: Global,
    files: &mut F,
    name: &str,
    limit: u32,
) -> Result<Bytes, Stop>
    ensures later { (n : List ℕ) → F.faults files.old n ≤ F.faults files.new n }
    ensures same { (n : List ℕ) → F.bytes files.new n ≡ F.bytes files.old n }
    ensures reads { ReadsFile name.now limit (F.bytes files.old name.now)
        (F.faults files.old name.now) (F.faults files.new name.now) (F.taken files.new) result }
{
    match files.read(alloc, name, limit) {
        Ok(bytes) => Ok(bytes),
        Err(FileFault::TooLong) => Err(Stop::Refused {
            status: 8,
            line: make_longer_line(alloc, name, limit)?,
        }),
        Err(FileFault::Failed) => Err(Stop::File {
            name: Bytes::copy_of(alloc, name.as_bytes())?,
        }),
        Err(FileFault::Memory) => Err(Stop::Memory),
    }
}
