//! Places in texts.

/// The piece of a text at which a line points.
#[repr(C)]
#[derive(Clone, Copy, Debug)]
pub struct Place {
    /// The number of the text, counted from 1, or 0 if the line points at no byte; then the other fields are 0 too.
    pub text: usize,
    /// One more than the number of line ends before the first byte.
    pub line: usize,
    /// One more than the number of bytes since the last of them.
    pub column: usize,
    /// The number of bytes before the first byte.
    pub offset: usize,
    /// One more than the number of line ends before the end of the piece.
    pub end_line: usize,
    /// One more than the number of bytes since the last of them.
    pub end_column: usize,
    /// The number of bytes up to the end of the piece.
    pub end_offset: usize,
}

/// The place of a line that points at no byte.
pub const NO_PLACE: Place = Place {
    text: 0,
    line: 0,
    column: 0,
    offset: 0,
    end_line: 0,
    end_column: 0,
    end_offset: 0,
};
