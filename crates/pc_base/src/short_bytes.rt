//! Bytes of which most rows are short, as the names of a text.
ghost use Rattle.std.specs.Prelude.{◌≡◌, length, IfOk};

use smallvec::SmallVec;
use std::alloc::{AllocError, Global};
use std::marker::Model;

/// Bytes that never change. Up to 16 of them are in the value itself, and so need no memory of their own. Contracts see
/// the sequence and nothing else.
#[derive(Debug, Drop)]
pub struct ShortBytes {
    row: SmallVec<u8, 16>,
}

impl Model for ShortBytes {
    ghost use Rattle.std.specs.Prelude.{List as Sequence, ℕ};

    ghost Value = { Sequence ℕ };

    ghost view = { λ bytes. bytes.row.items };
}

impl ShortBytes {
    /// These bytes.
    pub fn from_slice(alloc: Global, bytes: &[u8]) -> Result<ShortBytes, AllocError>
        ensures { IfOk result (λ kept. kept ≡ bytes.now) }
    {
        Ok(ShortBytes {
            row: SmallVec::from_slice(alloc, bytes)?,
        })
    }

    /// The bytes, in order.
    pub fn as_slice(&self) -> &[u8]
        ensures { result.now ≡ self.now }
    {
        self.row.as_slice()
    }

    /// The number of bytes.
    pub fn len(&self) -> usize
        ensures { result ≡ length self.now }
    {
        self.row.len()
    }
}
