//! A file that is judged in parts.
ghost use Rattle.std.specs.Prelude.{◌≡◌, ◌≤◌, ◌<◌, ◌↔◌, ℕ, List as Sequence, [], length, IfOk, IfErr, IsTrue};
ghost use Rattle.pc_core.specs.CoreData.{CoreData};
ghost use Rattle.pc_deriv.specs.Text.{derivation_limit};
ghost use Rattle.pc_feed.specs.Parts.{FileJudged, IsPartAt, NoPart, PartFed, PartTaken, PartsEnd};
ghost use Rattle.pc_feed.specs.Streams.{IsFed};

use crate::fault::StreamFault;
use crate::laws::one_list_is_asked;
use crate::stream::Stream;
use pc_core::Core;
use pc_deriv::LineFault;
use pc_io::{Bytes, FileFault, Files};
use pc_judge::JudgeFault;
use pc_referee::Referee;
use std::alloc::Global;

/// How many bytes a part has.
const PART_SIZE: u32 = 65_536;

/// How many bytes a derivation may have.
pub const DERIVATION_LIMIT: u32 = 33_554_432;

/// Why the derivation in a file is refused.
#[derive(Clone, Copy, Debug, PartialEq, Eq)]
pub enum DerivationFault {
    /// The file could not be read.
    Failed,
    /// The file has more bytes than a derivation may have.
    TooLong,
    /// Its bytes are not a derivation's text.
    Text(LineFault),
    /// They are the text of an annotation that is not valid: this is its first fault.
    Invalid(JudgeFault),
    /// Memory ran out.
    Memory,
}

// Feeds a part. A fault of its text is reported at the end.
fn feed_part<R: Referee>(
    stream: &mut Stream<'_>,
    part: &[u8],
    referee: &mut R,
) -> Result<(), DerivationFault>
    requires fed { (bytes : Sequence ℕ) × IsFed stream.old.core bytes stream.old }
    ensures { (core : CoreData) (bytes : Sequence ℕ) → IsFed core bytes stream.old → PartFed core bytes part.now stream.new (R.asked referee.old) (R.asked referee.new) result }
{
    one_list_is_asked();
    match stream.feed(part, referee) {
        Ok(()) => Ok(()),
        Err(StreamFault::Text(_)) => Ok(()),
        Err(StreamFault::Invalid(_)) => unreachable!(),
        Err(StreamFault::Memory) => Err(DerivationFault::Memory),
    }
}

// Reads the part of a file from one place on.
fn read_part<F: Files>(
    alloc: Global,
    files: &mut F,
    name: &str,
    from: u32,
) -> Result<Bytes, DerivationFault>
    ensures later { (n : Sequence ℕ) → F.faults files.old n ≤ F.faults files.new n }
    ensures same { (n : Sequence ℕ) → F.bytes files.new n ≡ F.bytes files.old n }
    ensures ok { IfOk result (λ part. IsPartAt (F.bytes files.old name.now) from part × (F.taken files.new ≡ length part)) }
    ensures err { IfErr result (NoPart (F.faults files.old name.now) (F.faults files.new name.now)) }
{
    match files.part(alloc, name, from, PART_SIZE) {
        Ok(part) => Ok(part),
        Err(FileFault::Failed) => Err(DerivationFault::Failed),
        Err(FileFault::TooLong) => unreachable!(),
        Err(FileFault::Memory) => Err(DerivationFault::Memory),
    }
}

// Whether bytes from this place on are more than a derivation may have.
fn is_past(from: u32, part: &[u8]) -> bool
    ensures { IsTrue result ↔ ((from ≡ derivation_limit) × (0 < length part.now)) }
{
    from == DERIVATION_LIMIT && !part.is_empty()
}

// Reads the part from one place on, and feeds it. Returns whether the part is full.
fn take_part<F: Files, R: Referee>(
    alloc: Global,
    files: &mut F,
    name: &str,
    from: u32,
    stream: &mut Stream<'_>,
    referee: &mut R,
) -> Result<bool, DerivationFault>
    requires place { from ≤ derivation_limit }
    requires fed { (bytes : Sequence ℕ) × IsFed stream.old.core bytes stream.old }
    ensures later { (n : Sequence ℕ) → F.faults files.old n ≤ F.faults files.new n }
    ensures same { (n : Sequence ℕ) → F.bytes files.new n ≡ F.bytes files.old n }
    ensures taken { (core : CoreData) (bytes : Sequence ℕ) → IsFed core bytes stream.old
        → PartTaken core (F.bytes files.old name.now) from bytes (F.faults files.old name.now) (F.faults files.new name.now) (F.taken files.new) stream.new (R.asked referee.old) (R.asked referee.new) result }
{
    let part = read_part(alloc, files, name, from)?;
    let bytes = part.as_slice();
    if is_past(from, bytes) {
        return Err(DerivationFault::TooLong);
    }
    feed_part(stream, bytes, referee)?;
    Ok(bytes.len() == PART_SIZE as usize)
}

// Reads all parts of the file, and feeds them.
fn take_parts<F: Files, R: Referee>(
    alloc: Global,
    files: &mut F,
    name: &str,
    stream: &mut Stream<'_>,
    referee: &mut R,
) -> Result<(), DerivationFault>
    requires { IsFed stream.old.core [] stream.old }
    ensures later { (n : Sequence ℕ) → F.faults files.old n ≤ F.faults files.new n }
    ensures same { (n : Sequence ℕ) → F.bytes files.new n ≡ F.bytes files.old n }
    ensures ends { PartsEnd stream.old.core (F.bytes files.old name.now) (F.faults files.old name.now) (F.faults files.new name.now) (F.taken files.new) stream.new (R.asked referee.old) (R.asked referee.new) result }
{
    let mut from = 0;
    'parts: loop {
        let is_full = take_part(alloc, files, name, from, stream, referee)?;
        if !is_full {
            return Ok(());
        }
        from += PART_SIZE;
    }
}

/// Judges the derivation in the file with this name, in version 1 or 2. It holds one part of 65,536 bytes at a time.
/// The file is read until a part is shorter, and at most to the part after the longest derivation. Each node is decided
/// by asking the referee, as described at `Stream`.
///
/// # Errors
/// The first of these: a part could not be read, the file is too long, the bytes are not a derivation's text, the
/// annotation is not valid. `Memory` if memory runs out.
pub fn judge_file<F: Files, R: Referee>(
    alloc: Global,
    files: &mut F,
    name: &str,
    core: &Core,
    referee: &mut R,
) -> Result<(), DerivationFault>
    ensures later { (n : Sequence ℕ) → F.faults files.old n ≤ F.faults files.new n }
    ensures same { (n : Sequence ℕ) → F.bytes files.new n ≡ F.bytes files.old n }
    // What was found, with its cause, and the nodes about which the referee was asked.
    ensures judged { FileJudged core.now (F.bytes files.old name.now) (F.faults files.old name.now) (F.faults files.new name.now) (F.taken files.new) (R.asked referee.old) (R.asked referee.new) result }
{
    let mut stream = Stream::start(alloc, core);
    take_parts(alloc, files, name, &mut stream, referee)?;
    match stream.end() {
        Ok(()) => Ok(()),
        Err(StreamFault::Text(fault)) => Err(DerivationFault::Text(fault)),
        Err(StreamFault::Invalid(fault)) => Err(DerivationFault::Invalid(fault)),
        Err(StreamFault::Memory) => Err(DerivationFault::Memory),
    }
}
