//! The judge that reads a derivation's text in pieces.
ghost use Rattle.std.specs.Prelude.{◌≡◌, ℕ, List as Sequence, [], Some, Err};
ghost use Rattle.pc_core.specs.CoreData.{CoreData};
ghost use Rattle.pc_deriv.specs.declared.line.LineFault.{LineFault as FaultIs};
ghost use Rattle.pc_feed.specs.Feeding.{EndsSo, Feeds};
ghost use Rattle.pc_feed.specs.Lines.{fault_in};
ghost use Rattle.pc_feed.specs.Streams.{IsFed, IsSpent};
ghost use Rattle.pc_feed.specs.declared.fault.StreamFault.TheVariants.{Memory, Text};

use crate::fault::StreamFault;
use crate::reading::Reading;
use pc_core::Core;
use pc_referee::Referee;
use std::alloc::Global;
use std::marker::Model;

/// A judge of a core that is fed a derivation's text in pieces, of any length. The first line names the text's version.
///
/// Contracts see of which bytes it is the stream (`IsFed`): those of all pieces that were fed, one after the other. It
/// keeps the types of the slots, the notes of the nodes without a parent so far, and the bytes of one line.
#[derive(Drop)]
pub struct Stream<'p> {
    core: &'p Core,
    reading: Reading,
}

impl<'p> Model for Stream<'p> {
    ghost use Rattle.pc_feed.specs.Streams.{StreamData, MayFeed};

    ghost Value = { StreamData };

    ghost view = { λ s. record { core = s.core.now; reading = s.reading } };

    ghost invariant = { λ s. MayFeed s.core.now s.reading };
}

impl<'p> Stream<'p> {
    /// A judge of a core that was fed nothing. Does not allocate.
    pub fn start(alloc: Global, core: &'p Core) -> Stream<'p>
        ensures { IsFed core.now [] result }
    {
        Stream {
            core,
            reading: Reading::new(alloc),
        }
    }

    /// Takes the next piece of the text. Each node whose line ends in it is decided by asking the referee once, in
    /// order, up to the first fault: a count, a slot, a node, or a field that a constructor leaves unset. A declaration
    /// that fails is reported by `end`, and does not stop the asking.
    ///
    /// # Errors
    /// - `Text` iff a line's fault is found in the bytes fed so far. Every later call returns the same.
    /// - `Memory` if memory runs out, here or earlier. Then the referee was asked about some first nodes of the
    ///   piece, and is asked no more.
    pub fn feed<R: Referee>(&mut self, piece: &[u8], referee: &mut R) -> Result<(), StreamFault>
        // The stream is that of the piece after all bytes before it, and the referee's list, if it is known, grew by
        // the nodes that are found right in the piece.
        ensures fed { (core : CoreData) (bytes : Sequence ℕ) → IsFed core bytes self.old
            → Feeds core bytes piece.now self.new (R.asked referee.old) (R.asked referee.new) result }
        // A fault of the text is returned again.
        ensures kept { (core : CoreData) (bytes : Sequence ℕ) (f : FaultIs) → IsFed core bytes self.old → fault_in bytes ≡ Some f → result ≡ Err (Text f) }
        // After memory ran out nothing is taken and nothing is asked.
        ensures spent { IsSpent self.old → (result ≡ Err Memory) × IsSpent self.new × (R.asked referee.new ≡ R.asked referee.old) }
    {
        if self.reading.spent {
            return Err(StreamFault::Memory);
        }
        self.reading.take_piece(self.core, piece, referee)
    }

    /// Ok iff the bytes fed are the text of a valid annotation, in version 1 or 2. Does not allocate.
    ///
    /// # Errors
    /// - `Text` iff they are not a derivation's text in either version, with its fault.
    /// - `Invalid` iff they are the text of an annotation that is not valid, with its first fault.
    /// - `Memory` iff a call of `feed` returned it.
    pub fn end(self) -> Result<(), StreamFault>
        ensures fed { (core : CoreData) (bytes : Sequence ℕ) → IsFed core bytes self.entry → EndsSo core bytes result }
        ensures spent { IsSpent self.entry → result ≡ Err Memory }
    {
        self.reading.end(self.core)
    }
}
