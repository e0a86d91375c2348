//! Texts that are too long to be written down.
use std::alloc::{AllocError, Global};

/// A piece of a text, and how often it comes.
pub type Piece = (&'static [u8], usize);

// Appends the same bytes this many times.
fn push_times(text: &mut Vec<u8>, bytes: &[u8], count: usize) -> Result<(), AllocError> {
    for _ in 0..count {
        text.extend_from_slice(bytes)?;
    }
    Ok(())
}

/// The text of these pieces.
pub fn text_of(alloc: Global, pieces: &[Piece]) -> Result<Vec<u8>, AllocError> {
    let mut text = Vec::new(alloc);
    for (bytes, count) in pieces {
        push_times(&mut text, bytes, *count)?;
    }
    Ok(text)
}
