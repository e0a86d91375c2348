//! Reading bytes that are in memory, up to a limit: all of them, or a part.
ghost use Rattle.std.specs.Prelude.{◌≡◌};
ghost use Rattle.pc_io.specs.Files.{IsCopy, IsPart, part_of};

use crate::{Bytes, FileFault};
use std::alloc::Global;

/// How many of these bytes a read takes, and what it returns.
pub fn read_bytes(alloc: Global, bytes: &[u8], limit: u32) -> (usize, Result<Bytes, FileFault>)
    ensures { IsCopy bytes.now limit result.0 result.1 }
{
    let most = limit as usize;
    if bytes.len() > most {
        return (most + 1, Err(FileFault::TooLong));
    }
    match Bytes::copy_of(alloc, bytes) {
        Ok(copy) => (copy.len(), Ok(copy)),
        Err(error) => (0, Err(FileFault::from(error))),
    }
}

// The bytes from a place on, up to a limit.
#[tactic(auto, using(crate::proofs::Parts::part_is))]
fn part_of(bytes: &[u8], from: u32, limit: u32) -> &[u8]
    ensures { result.now ≡ part_of bytes.now from limit }
{
    let start = (from as usize).min(bytes.len());
    let rest = &bytes[start..];
    let count = (limit as usize).min(rest.len());
    &rest[..count]
}

/// How many of these bytes a read of a part takes, and what it returns.
pub fn read_part(
    alloc: Global,
    bytes: &[u8],
    from: u32,
    limit: u32,
) -> (usize, Result<Bytes, FileFault>)
    ensures { IsPart bytes.now from limit result.0 result.1 }
{
    match Bytes::copy_of(alloc, part_of(bytes, from, limit)) {
        Ok(copy) => (copy.len(), Ok(copy)),
        Err(error) => (0, Err(FileFault::from(error))),
    }
}
