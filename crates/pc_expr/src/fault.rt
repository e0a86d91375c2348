//! Why tokens do not spell a tree, by the byte of a token.

/// Why no tree is returned. A place is the byte offset of a token in the text.
#[derive(Clone, Copy, Debug, PartialEq, Eq)]
pub enum ParseFault {
    /// With the token at this place nothing begins any more.
    Unexpected(u32),
    /// The token at this place opens level 201.
    TooDeep(u32),
    /// Memory ran out.
    Memory,
}
