//! A sink in memory, which never fails.
ghost use Rattle.std.specs.Prelude.{◌≡◌, [], Some};

use crate::{Sink, SinkFault};
use std::alloc::Global;
use std::marker::Model;

/// A sink in memory that never fails, except by running out of memory. In contracts it is the list of the bytes
/// written.
#[derive(Debug, Drop)]
pub struct NeverSink {
    bytes: Vec<u8>,
}

impl Model for NeverSink {
    ghost use Rattle.std.specs.Prelude.{List, ℕ};

    ghost Value = { List ℕ };

    ghost view = { λ s. s.bytes.items };
}

impl NeverSink {
    /// An empty sink. Does not allocate.
    pub fn new(alloc: Global) -> NeverSink
        ensures { result ≡ [] }
    {
        NeverSink {
            bytes: Vec::new(alloc),
        }
    }

    /// All bytes written so far.
    pub fn bytes(&self) -> &[u8]
        ensures { result.now ≡ self.now }
    {
        self.bytes.as_slice()
    }
}

impl Sink for NeverSink {
    ghost written = { λ s. Some s };

    ghost faults = { λ s. 0 };

    fn put(&mut self, piece: &[u8]) -> Result<(), SinkFault> {
        if piece.is_empty() {
            return Ok(());
        }
        self.bytes.extend_from_slice(piece)?;
        Ok(())
    }
}
