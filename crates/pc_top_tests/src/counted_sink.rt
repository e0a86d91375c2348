//! A sink that counts its calls.
ghost use Rattle.std.specs.Prelude.{Some};

use pc_io::{MemSink, Sink, SinkFault};
use std::alloc::{AllocError, Global};

/// A sink in memory that counts the calls of `put`, including those with an empty piece and those that fail.
#[derive(Drop)]
pub(crate) struct CountedSink {
    sink: MemSink,
    calls: u32,
}

impl CountedSink {
    /// An empty sink for which these calls fail, each after this many bytes of its piece.
    pub(crate) fn new(alloc: Global, fail: &[(u32, u32)]) -> Result<CountedSink, AllocError> {
        let sink = MemSink::new(alloc, fail)?;
        Ok(CountedSink { sink, calls: 0 })
    }

    /// All bytes that have been put so far.
    pub(crate) fn bytes(&self) -> &[u8] {
        self.sink.bytes()
    }

    /// How many calls of `put` there were.
    pub(crate) fn calls(&self) -> u32 {
        self.calls
    }
}

impl Sink for CountedSink {
    ghost written = { λ s. Some s.sink.bytes };

    ghost faults = { λ s. s.sink.faults };

    fn put(&mut self, piece: &[u8]) -> Result<(), SinkFault> {
        self.calls = self.calls.saturating_add(1);
        self.sink.put(piece)
    }
}
