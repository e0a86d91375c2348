//! Names and written types, with their spans.
use pc_base::{ShortBytes, Span};
use pc_caps::Cap;

/// A name or a type name, as it is written.
#[derive(Debug, Drop)]
pub struct Name {
    /// Its bytes.
    pub text: ShortBytes,
    pub span: Span,
}

/// A written type: `C`, `C iso` or, as a result, `C iso^` (the Pony tutorial).
#[derive(Debug, Drop)]
pub struct TypeRef {
    pub name: Name,
    /// The capability, if one is written.
    pub cap: Option<Cap>,
    /// Whether a `^` is written: the value has no name yet. Only a result type can have one.
    pub hat: bool,
}
