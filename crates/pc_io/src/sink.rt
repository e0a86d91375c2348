//! Sinks: the interface of whatever text is written to.
ghost use Rattle.std.specs.Prelude.{◌≡◌, ◌≤◌, List, ℕ, [], Ok, OnOk, IsErrOf};
ghost use Rattle.std.specs.declared.option.Option.{Option};
ghost use Rattle.std.specs.Io.KnownBytes.{Appends, Keeps};
ghost use Rattle.pc_io.specs.Sink.{HasRisen, GrowsByPrefix};
ghost use Rattle.pc_io.specs.declared.sink.SinkFault.TheVariants.{Memory};

use std::alloc::{AllocError, AllocFailed};

/// Why a piece was not written.
#[derive(Clone, Copy, Debug, PartialEq, Eq)]
pub enum SinkFault {
    /// The sink did not take the whole piece.
    Failed,
    /// Out of memory; then nothing of the piece was written.
    Memory,
}

impl From<AllocError> for SinkFault {
    ghost from_gives = { λ _ fault. fault ≡ Memory };

    fn from(_: AllocError) -> Self {
        SinkFault::Memory
    }
}

impl<T: Drop> From<AllocFailed<T>> for SinkFault {
    ghost from_gives = { λ _ fault. fault ≡ Memory };

    fn from(_: AllocFailed<T>) -> Self {
        SinkFault::Memory
    }
}

/// Something that text is written to, piece by piece.
///
/// Contracts see two things. `written` is all that was written so far, if that is known: of a terminal or a pipe it is
/// not. `faults` counts the calls that failed, and never decreases; it has 64 bits and stays at its last value.
pub trait Sink {
    /// What was written, if it is known.
    ghost written: { Self → Option (List ℕ) };

    /// How often a piece was not taken whole.
    ghost faults: { Self → ℕ };

    /// Writes the whole piece. An empty piece is always written, and changes neither what was written nor the count.
    ///
    /// # Errors
    /// - `Failed` only if the count of failures rose in this call, or is at its last value. What was written grew by
    ///   a prefix of the piece. A sink that takes nothing of a piece that is not empty has failed.
    /// - `Memory` if memory runs out. What was written is as before.
    fn put(&mut self, piece: &[u8]) -> Result<(), SinkFault>
        ensures later { faults self.old ≤ faults self.new }
        ensures ok { OnOk result (Appends (written self.old) (written self.new) piece.now) }
        ensures failed { IsErrOf result SinkFault.Failed → HasRisen (faults self.old) (faults self.new) }
        ensures part { IsErrOf result SinkFault.Failed → GrowsByPrefix (written self.old) (written self.new) piece.now }
        ensures memory { IsErrOf result SinkFault.Memory → Keeps (written self.old) (written self.new) }
        ensures empty { piece.now ≡ [] → (result ≡ Ok tt) × (written self.new ≡ written self.old) × (faults self.new ≡ faults self.old) };
}
