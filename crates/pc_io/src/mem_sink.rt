//! A sink in memory, which can be made to fail.
ghost use Rattle.std.specs.Prelude.{◌≡◌, ◌≤◌, nat_eq, find, option_map, IfOk, IsErrOf, Some};
ghost use Rattle.pc_io.specs.MemSink.{new_tape, after_put, IsAnswerOf};
ghost use Rattle.pc_io.specs.Sink.{GrowsByPrefix};

use crate::{Sink, SinkFault};
use std::alloc::{AllocError, Global};
use std::marker::Model;

/// A sink in memory, for tests of what writes: chosen calls of `put` fail.
#[derive(Debug, Drop)]
pub struct MemSink {
    bytes: Vec<u8>,
    failing: Vec<(u32, u32)>,
    next_call: u64,
    faults: u64,
}

impl Model for MemSink {
    ghost use Rattle.pc_io.specs.MemSink.{Tape};

    ghost Value = { Tape };

    ghost view = { λ s. record {
      bytes = s.bytes.items;
      failing = s.failing.items;
      next_call = s.next_call;
      faults = s.faults;
    } };
}

impl MemSink {
    /// An empty sink. Each pair in `fail` is the number of a call of `put` that will fail, and how many bytes of its
    /// piece that call takes first. Of several pairs with the same number the first counts. All calls are numbered from
    /// 1, whatever they are given and whatever they return.
    ///
    /// # Errors
    /// `AllocError` if there is no memory for a copy of `fail`.
    pub fn new(alloc: Global, fail: &[(u32, u32)]) -> Result<MemSink, AllocError>
        ensures { IfOk result (λ sink. sink ≡ new_tape fail.now) }
    {
        Ok(MemSink {
            bytes: Vec::new(alloc),
            failing: fail.to_vec(alloc)?,
            next_call: 1,
            faults: 0,
        })
    }

    /// All bytes written so far, including those of calls that failed.
    pub fn bytes(&self) -> &[u8]
        ensures { result.now ≡ self.now.bytes }
    {
        self.bytes.as_slice()
    }
}

impl Sink for MemSink {
    ghost written = { λ s. Some s.bytes };

    ghost faults = { λ s. s.faults };

    /// Fails iff the number of the call is one of those that fail and the piece is not empty.
    fn put(&mut self, piece: &[u8]) -> Result<(), SinkFault>
        ensures answer { IsAnswerOf self.old piece.now result }
        ensures later { self.old.faults ≤ self.new.faults }
        ensures part { IsErrOf result SinkFault.Failed
            → GrowsByPrefix (Some self.old.bytes) (Some self.new.bytes) piece.now }
        ensures rest { self.new ≡ after_put self.old piece.now result }
    {
        let planned = bytes_before_failure(&self.failing, self.next_call);
        self.next_call = self.next_call.saturating_add(1);
        if piece.is_empty() {
            return Ok(());
        }
        match planned {
            None => {
                self.bytes.extend_from_slice(piece)?;
                Ok(())
            }
            Some(room) => {
                let count = (room as usize).min(piece.len());
                self.bytes.extend_from_slice(&piece[..count])?;
                self.faults = self.faults.saturating_add(1);
                Err(SinkFault::Failed)
            }
        }
    }
}

// If the call fails, how many bytes it takes first.
fn bytes_before_failure(failing: &[(u32, u32)], call: u64) -> Option<u32>
    ensures { result ≡ option_map (λ f. f.1) (find (λ f. nat_eq f.0 call) failing.now) }
{
    failing.iter().find(|f| u64::from(f.0) == call).map(|f| f.1)
}
