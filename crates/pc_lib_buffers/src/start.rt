//! Where a line points.

/// The byte of a text at which a line points.
#[derive(Clone, Copy, Debug)]
pub struct Start {
    /// The number of the text, counted from 1.
    pub text: usize,
    /// One more than the number of line ends before the byte.
    pub line: usize,
    /// One more than the number of bytes since the last of them.
    pub column: usize,
    /// The number of bytes before it.
    pub offset: usize,
}
