//! A source with its core.
use pc_core::Core;
use pc_io::Bytes;

/// The greatest number of bytes of a source.
pub const SOURCE_LIMIT: u32 = 1_048_576;

/// A source that has passed all stages.
#[derive(Drop)]
pub struct Source {
    /// Its bytes, in which refusals name places.
    pub bytes: Bytes,
    /// The core that represents the file that its tokens spell.
    pub core: Core,
}
