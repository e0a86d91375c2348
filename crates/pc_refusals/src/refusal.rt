//! Refusals with their line, and those that name a byte of a file.
ghost use Rattle.std.specs.Prelude.{◌≡◌, IfOk};
ghost use Rattle.pc_base.specs.Lists.{Text};
ghost use Rattle.pc_refusals.specs.Inner.Refusals.{IsRefusal};
ghost use Rattle.pc_refusal_lines.specs.Lines.{offset_line};

use crate::lines::make_place_line;
use crate::stop::Stop;
use pc_io::Bytes;
use pc_refusal_lines::place_of;
use std::alloc::{AllocError, Global};

/// The line that names a byte of the file with this name, and what is wrong there.
pub fn make_offset_line(
    alloc: Global,
    name: &str,
    bytes: &[u8],
    offset: u32,
    what: &str,
) -> Result<Bytes, AllocError>
    ensures { IfOk result (λ line. line ≡ offset_line name.now bytes.now offset what.now) }
{
    make_place_line(alloc, name, place_of(bytes, offset as usize), what)
}

/// The refusal with this status and this line, or out of memory if there was none for the line.
pub fn refuse(status: u8, line: Result<Bytes, AllocError>) -> Stop
    ensures { (text : Text) → IfOk line (λ made. made ≡ text) → IsRefusal status text result }
{
    match line {
        Ok(line) => Stop::Refused { status, line },
        Err(_) => Stop::Memory,
    }
}

/// The refusal of the file with this name and these bytes, at one of them.
pub fn refuse_at(
    alloc: Global,
    name: &str,
    bytes: &[u8],
    status: u8,
    offset: u32,
    what: &str,
) -> Stop
    ensures { IsRefusal status (offset_line name.now bytes.now offset what.now) result }
{
    match make_offset_line(alloc, name, bytes, offset, what) {
        Ok(line) => Stop::Refused { status, line },
        Err(_) => Stop::Memory,
    }
}
