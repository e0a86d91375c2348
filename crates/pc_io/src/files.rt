//! Files by their names: the interface of whatever reads them.
ghost use Rattle.std.specs.Prelude.{◌≡◌, ◌<◌, ◌≤◌, ◌≢◌, ◌+◌, List, ℕ, length, Err, IfOk, IfSome, IsErrOf};
ghost use Rattle.std.specs.declared.option.Option.{Option};
ghost use Rattle.pc_io.specs.declared.files.FileFault.TheVariants.{Memory};
ghost use Rattle.pc_io.specs.Files.{TooLongOnly, part_of};

use crate::Bytes;
use std::alloc::{AllocError, AllocFailed, Global};

/// Why a file was not read.
#[derive(Clone, Copy, Debug, PartialEq, Eq)]
pub enum FileFault {
    /// The file could not be read, for example because it does not exist.
    Failed,
    /// The file has more bytes than the limit.
    TooLong,
    /// Out of memory, which says nothing about the file.
    Memory,
}

impl From<AllocError> for FileFault {
    ghost from_gives = { λ _ fault. fault ≡ Memory };

    fn from(_: AllocError) -> Self {
        FileFault::Memory
    }
}

impl<T: Drop> From<AllocFailed<T>> for FileFault {
    ghost from_gives = { λ _ fault. fault ≡ Memory };

    fn from(_: AllocFailed<T>) -> Self {
        FileFault::Memory
    }
}

/// Files that can be read by their names.
///
/// Contracts see three things. `bytes` is what each name holds, if that is known: of a real file it is not. `faults`
/// counts for each name how often reading it failed, and never decreases. `taken` is the number of bytes that the last
/// call took from its file.
pub trait Files {
    /// The bytes of a name, if they are known.
    ghost bytes: { Self → List ℕ → Option (List ℕ) };

    /// How often reading a name has failed.
    ghost faults: { Self → List ℕ → ℕ };

    /// How many bytes the last call took from its file.
    ghost taken: { Self → ℕ };

    /// All bytes of the file, which are at most `limit`, allocated in `alloc`. No read changes what a name holds.
    ///
    /// # Errors
    /// - `Failed` only if the faults of this very name rose in this call.
    /// - `TooLong` only after the first byte past the limit was taken, and no more is taken then. If the bytes are
    ///   known and the faults of the name did not rise, there are more bytes than the limit.
    /// - `Memory` if memory runs out.
    fn read(&mut self, alloc: Global, name: &str, limit: u32) -> Result<Bytes, FileFault>
        // Whatever the answer.
        ensures same { (n : List ℕ) → bytes self.new n ≡ bytes self.old n }
        ensures later { (n : List ℕ) → faults self.old n ≤ faults self.new n }
        ensures at_most { taken self.new ≤ limit + 1 }

        // With Ok, the whole file is returned, and it is within the limit.
        ensures all { IfOk result (λ b. IfSome (bytes self.old name.now) (λ known. b ≡ known)) }
        ensures within { IfOk result (λ b. length b ≤ limit) }
        ensures whole { IfOk result (λ b. taken self.new ≡ length b) }

        // Each refusal has its cause.
        ensures failed { IsErrOf result FileFault.Failed → faults self.old name.now < faults self.new name.now }
        ensures longer { IsErrOf result FileFault.TooLong → limit < taken self.new }
        ensures known { IsErrOf result FileFault.TooLong → TooLongOnly limit (bytes self.old name.now)
            (faults self.old name.now) (faults self.new name.now) };

    /// The bytes of the file from `from` on, up to `limit` of them, allocated in `alloc`. No read changes what a name
    /// holds.
    ///
    /// # Errors
    /// - `Failed` only if the faults of this very name rose in this call.
    /// - `Memory` if memory runs out.
    ///
    /// `TooLong` is never returned.
    fn part(&mut self, alloc: Global, name: &str, from: u32, limit: u32) -> Result<Bytes, FileFault>
        requires { 0 < limit }

        // Whatever the answer.
        ensures same { (n : List ℕ) → bytes self.new n ≡ bytes self.old n }
        ensures later { (n : List ℕ) → faults self.old n ≤ faults self.new n }
        ensures at_most { taken self.new ≤ limit }

        // With Ok, this part of the file is returned.
        ensures all { IfOk result (λ b. IfSome (bytes self.old name.now) (λ known. b ≡ part_of known from limit)) }
        ensures within { IfOk result (λ b. length b ≤ limit) }
        ensures whole { IfOk result (λ b. taken self.new ≡ length b) }

        // Each refusal has its cause.
        ensures failed { IsErrOf result FileFault.Failed → faults self.old name.now < faults self.new name.now }
        ensures short { result ≢ Err FileFault.TooLong };
}
