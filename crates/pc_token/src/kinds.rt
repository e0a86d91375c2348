//! Tokens and their kinds.
use crate::signs::Sign;
use crate::words::Word;
use pc_base::{List, ShortBytes, Span};

/// A kind of token, with the value that it carries. The tokens are those of this project's profile of Pony.
#[derive(Debug, Drop)]
pub enum TokenKind {
    /// A name that is no reserved word, in bytes: at most one `_`, a small letter, then any number of letters, digits
    /// and `_`, and finally any number of `'`.
    Name(ShortBytes),
    /// A type name, in bytes: the same with a capital letter first.
    TypeName(ShortBytes),
    /// A reserved word.
    Word(Word),
    /// A number below 2^64, by its value.
    Number(u64),
    /// A text literal, by the bytes that it denotes, with its escapes resolved.
    Text(List<u8>),
    /// A documentation text between two `"""`. Its contents are ignored.
    Doc,
    /// A sign.
    Sign(Sign),
    /// The end of the text, the last token of every list.
    End,
}

/// A token and its place.
#[derive(Debug, Drop)]
pub struct Token {
    pub kind: TokenKind,
    /// Whether it is the first token of the text, or there is a line feed between the previous token and it.
    pub first: bool,
    /// Its bytes, by their offsets in the text.
    pub span: Span,
}
