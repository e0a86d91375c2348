//! The signs, and the longest one that a text begins with.
ghost use Rattle.std.specs.Prelude.{◌≡◌, ◌≤◌, length, IfSome};
ghost use Rattle.pc_token.specs.Words as spec;
ghost use Rattle.pc_token.specs.Finding as finding;

/// A sign.
#[derive(Clone, Copy, Debug, PartialEq, Eq)]
pub enum Sign {
    /// `=>`
    Arrow,
    /// `==`
    Equal,
    /// `!=`
    NotEqual,
    /// `<=`
    LessEqual,
    /// `>=`
    GreaterEqual,
    /// `(`
    OpenParen,
    /// `)`
    CloseParen,
    /// `,`
    Comma,
    /// `.`
    Dot,
    /// `:`
    Colon,
    /// `;`
    Semicolon,
    /// `=`
    Assign,
    /// `^`
    Caret,
    /// `&`
    Ampersand,
    /// `+`
    Plus,
    /// `-`
    Minus,
    /// `*`
    Star,
    /// `/`
    Slash,
    /// `%`
    Percent,
    /// `<`
    Less,
    /// `>`
    Greater,
}

/// All signs, each once, longer ones first.
pub const SIGNS: [Sign; 21] = [
    Sign::Arrow,
    Sign::Equal,
    Sign::NotEqual,
    Sign::LessEqual,
    Sign::GreaterEqual,
    Sign::OpenParen,
    Sign::CloseParen,
    Sign::Comma,
    Sign::Dot,
    Sign::Colon,
    Sign::Semicolon,
    Sign::Assign,
    Sign::Caret,
    Sign::Ampersand,
    Sign::Plus,
    Sign::Minus,
    Sign::Star,
    Sign::Slash,
    Sign::Percent,
    Sign::Less,
    Sign::Greater,
];

/// The spelling of a sign.
pub fn sign_text(sign: Sign) -> &'static [u8]
    ensures { result.now ≡ spec.sign_text sign }
{
    match sign {
        Sign::Arrow => b"=>",
        Sign::Equal => b"==",
        Sign::NotEqual => b"!=",
        Sign::LessEqual => b"<=",
        Sign::GreaterEqual => b">=",
        Sign::OpenParen => b"(",
        Sign::CloseParen => b")",
        Sign::Comma => b",",
        Sign::Dot => b".",
        Sign::Colon => b":",
        Sign::Semicolon => b";",
        Sign::Assign => b"=",
        Sign::Caret => b"^",
        Sign::Ampersand => b"&",
        Sign::Plus => b"+",
        Sign::Minus => b"-",
        Sign::Star => b"*",
        Sign::Slash => b"/",
        Sign::Percent => b"%",
        Sign::Less => b"<",
        Sign::Greater => b">",
    }
}

/// The first of these signs with which the text begins, and its length.
fn find_sign(signs: &[Sign], text: &[u8]) -> Option<(Sign, usize)>
    ensures value { result ≡ finding.first_sign signs.now text.now }
    ensures within { IfSome result (λ found. found.1 ≤ length text.now) }
{
    for sign in signs {
        let spelling = sign_text(*sign);
        if text.starts_with(spelling) {
            return Some((*sign, spelling.len()));
        }
    }
    None
}

/// The longest sign with which the text begins, and its length. Only signs that begin with the first byte of the text
/// are tried.
pub fn sign_at(text: &[u8]) -> Option<(Sign, usize)>
    ensures value { result ≡ finding.sign_at text.now }
    ensures within { IfSome result (λ found. found.1 ≤ length text.now) }
{
    if text.is_empty() {
        return find_sign(&SIGNS, text);
    }
    match text[0] {
        b'=' => find_sign(&[Sign::Arrow, Sign::Equal, Sign::Assign], text),
        b'!' => find_sign(&[Sign::NotEqual], text),
        b'<' => find_sign(&[Sign::LessEqual, Sign::Less], text),
        b'>' => find_sign(&[Sign::GreaterEqual, Sign::Greater], text),
        b'(' => find_sign(&[Sign::OpenParen], text),
        b')' => find_sign(&[Sign::CloseParen], text),
        b',' => find_sign(&[Sign::Comma], text),
        b'.' => find_sign(&[Sign::Dot], text),
        b':' => find_sign(&[Sign::Colon], text),
        b';' => find_sign(&[Sign::Semicolon], text),
        b'^' => find_sign(&[Sign::Caret], text),
        b'&' => find_sign(&[Sign::Ampersand], text),
        b'+' => find_sign(&[Sign::Plus], text),
        b'-' => find_sign(&[Sign::Minus], text),
        b'*' => find_sign(&[Sign::Star], text),
        b'/' => find_sign(&[Sign::Slash], text),
        b'%' => find_sign(&[Sign::Percent], text),
        _ => find_sign(&SIGNS, text),
    }
}
