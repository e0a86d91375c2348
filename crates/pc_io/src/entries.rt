//! A list of files in memory.
ghost use Rattle.std.specs.Prelude.{◌≡◌, option_map, List, ℕ, Some, OnOk, OnErr, if◌then◌else◌};
ghost use Rattle.std.specs.Str.{bytes_eq};
ghost use Rattle.pc_io.specs.Entries.{held};

use crate::Bytes;
use std::alloc::{AllocError, Global};

/// A file in memory.
#[derive(Debug, Drop)]
pub struct Entry {
    pub name: Bytes,
    pub bytes: Bytes,
}

/// The file with this name.
pub fn find_entry<'a>(entries: &'a [Entry], name: &[u8]) -> Option<&'a Entry>
    ensures { option_map (λ e. e.now.bytes) result ≡ held entries.now name.now }
{
    entries.iter().find(|e| e.name.as_slice() == name)
}

/// Puts a file before the others, so that a name already present gets the new bytes.
pub fn put_entry(
    entries: &mut Vec<Entry>,
    alloc: Global,
    name: &str,
    bytes: &[u8],
) -> Result<(), AllocError>
    ensures ok { OnOk result ((n : List ℕ) → held entries.new.items n
        ≡ (if bytes_eq name.now n then Some bytes.now else held entries.old.items n)) }
    ensures err { OnErr result (entries.new.items ≡ entries.old.items) }
{
    let name = Bytes::copy_of(alloc, name.as_bytes())?;
    let bytes = Bytes::copy_of(alloc, bytes)?;
    entries.insert(0, Entry { name, bytes })?;
    Ok(())
}
