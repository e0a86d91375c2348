//! A sink over a writer.
ghost use Rattle.std.specs.Prelude.{◌≡◌, ◌≤◌, [], Ok, Err, MatchBool, OnOk, OnErr};
ghost use Rattle.std.specs.Io.KnownBytes.{Appends};
ghost use Rattle.pc_io.specs.Sink.{one_more, GrowsByPrefix};

use crate::{Sink, SinkFault};
use std::io::{ErrorKind, Write};
use std::marker::Model;

/// A sink over any writer of the standard library. It reports as written what the writer reports as written.
#[derive(Drop)]
pub struct HostSink<W: Write> {
    inner: W,
    faults: u64,
}

impl<W: Write> Model for HostSink<W> {
    ghost use Rattle.pc_io.specs.HostSink.{ToldWriter};

    ghost Value = { ToldWriter };

    ghost view = { λ s. record { written = W.contents s.inner; faults = s.faults } };
}

impl<W: Write> HostSink<W> {
    /// A sink that passes each piece on to this writer. Does not allocate.
    pub fn new(inner: W) -> HostSink<W>
        ensures written { result.written ≡ W.contents inner }
        ensures faults { result.faults ≡ 0 }
    {
        HostSink { inner, faults: 0 }
    }
}

impl<W: Write> Sink for HostSink<W> {
    ghost written = { λ s. s.written };

    ghost faults = { λ s. s.faults };

    /// Writes until the writer has taken the whole piece, if need be in many short writes. An interrupted write is
    /// tried again. The call fails if the writer returns any other error, or takes nothing. The call allocates nothing
    /// itself, so it never returns `Memory`.
    fn put(&mut self, piece: &[u8]) -> Result<(), SinkFault>
        ensures later { self.old.faults ≤ self.new.faults }
        ensures ok { OnOk result (Appends self.old.written self.new.written piece.now) }
        ensures ok_faults { OnOk result (self.new.faults ≡ self.old.faults) }
        ensures failed { OnErr result (result ≡ Err SinkFault.Failed) }
        ensures failed_faults { OnErr result (self.new.faults ≡ one_more self.old.faults) }
        ensures part { OnErr result (GrowsByPrefix self.old.written self.new.written piece.now) }
        ensures empty { piece.now ≡ [] → (result ≡ Ok tt) × (self.new ≡ self.old) }
    {
        if piece.is_empty() || write_whole(&mut self.inner, piece) {
            return Ok(());
        }
        self.faults = self.faults.saturating_add(1);
        Err(SinkFault::Failed)
    }
}

// Whether the writer took the whole piece.
fn write_whole<W: Write>(writer: &mut W, piece: &[u8]) -> bool
    ensures { MatchBool result (Appends (W.contents writer.old) (W.contents writer.new) piece.now)
        (GrowsByPrefix (W.contents writer.old) (W.contents writer.new) piece.now) }
{
    let mut at = 0;
    for _ in 0..u64::MAX {
        if at >= piece.len() {
            return true;
        }
        match writer.write(&piece[at..]) {
            Ok(0) => return false,
            Ok(count) => at += count,
            Err(error) => {
                if error.kind() != ErrorKind::Interrupted {
                    return false;
                }
            }
        }
    }
    false
}
