//! Classes of bytes, and runs of them.
ghost use Rattle.std.specs.Prelude.{◌≡◌, ◌≤◌, length};
ghost use Rattle.std.specs.List.{prefix_len};
ghost use Rattle.pc_lex.specs.Pieces as spec;
ghost use Rattle.pc_lex.specs.Pieces.{first_test};
ghost use Rattle.pc_lex.specs.Reading as reading;

/// A class of bytes.
#[derive(Clone, Copy)]
pub enum Class {
    /// What may come after the first letter of a name: letters, digits and `_`.
    Tail,
    /// `'`
    Prime,
    /// Every byte that does not end a line comment.
    Line,
}

/// Whether a byte separates tokens.
pub fn is_blank(byte: u8) -> bool
    ensures { result ≡ spec.is_blank byte }
{
    byte == b' ' || byte == b'\t' || byte == b'\r' || byte == b'\n'
}

/// Whether a byte is a letter of either case.
pub fn is_letter(byte: u8) -> bool
    ensures { result ≡ spec.is_letter byte }
{
    byte.is_ascii_lowercase() || byte.is_ascii_uppercase()
}

/// Whether a byte is in a class.
pub fn is_in(class: Class, byte: u8) -> bool
    ensures { result ≡ reading.class_test class byte }
{
    match class {
        Class::Tail => is_letter(byte) || byte.is_ascii_digit() || byte == b'_',
        Class::Prime => byte == b'\'',
        Class::Line => byte != b'\n',
    }
}

/// The number of bytes at the front that are in a class.
pub fn run(class: Class, text: &[u8]) -> usize
    ensures value { result ≡ prefix_len (reading.class_test class) text.now }
    ensures within { result ≤ length text.now }
{
    let mut n = 0;
    while n < text.len() && is_in(class, text[n]) {
        n += 1;
    }
    n
}

/// Whether the text begins with a byte that may not follow a number.
pub fn is_joined(text: &[u8]) -> bool
    ensures { result ≡ first_test spec.is_joined text.now }
{
    match text {
        [b, ..] => is_in(Class::Tail, *b) || is_in(Class::Prime, *b),
        [] => false,
    }
}
