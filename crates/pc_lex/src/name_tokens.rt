//! Names: where they end, and their kinds.
ghost use Rattle.std.specs.Prelude.{◌≡◌, ◌≤◌, length, IfOk};
ghost use Rattle.pc_lex.specs.Reading as reading;

use crate::classes::{Class, is_letter, run};
use pc_base::ShortBytes;
use pc_token::{TokenKind, word_of};
use std::alloc::{AllocError, Global};

/// The number of bytes that continue a name after its first letter.
#[tactic(auto, unfolding(crate::specs::Reading::tail_len))]
fn tail_len(text: &[u8]) -> usize
    ensures value { result ≡ reading.tail_len text.now }
    ensures within { result ≤ length text.now }
{
    let n = run(Class::Tail, text);
    n + run(Class::Prime, &text[n..])
}

/// The length of the name at the front that begins with a letter, or 0.
#[tactic(auto, unfolding(crate::specs::Reading::letter_len))]
fn letter_len(text: &[u8]) -> usize
    ensures value { result ≡ reading.letter_len text.now }
    ensures within { result ≤ length text.now }
{
    match text {
        [head, rest @ ..] if is_letter(*head) => 1 + tail_len(rest),
        _ => 0,
    }
}

/// The length of the name or type name at the front, or 0.
#[tactic(auto, unfolding(crate::specs::Reading::name_len))]
pub fn name_len(text: &[u8]) -> usize
    ensures value { result ≡ reading.name_len text.now }
    ensures within { result ≤ length text.now }
{
    match text {
        [b'_', rest @ ..] => {
            let n = letter_len(rest);
            if n == 0 { 0 } else { n + 1 }
        }
        _ => letter_len(text),
    }
}

/// Whether a name is a type name.
#[tactic(auto, unfolding(crate::specs::Reading::is_type))]
fn is_type(name: &[u8]) -> bool
    ensures { result ≡ reading.is_type name.now }
{
    match name {
        [b'_', head, ..] => head.is_ascii_uppercase(),
        [head, ..] => head.is_ascii_uppercase(),
        [] => false,
    }
}

/// The kind of a name: a type name, a reserved word, or another name.
#[tactic(auto, unfolding(crate::specs::Reading::name_kind))]
pub fn name_kind(alloc: Global, name: &[u8]) -> Result<TokenKind, AllocError>
    ensures { IfOk result (λ kind. kind ≡ reading.name_kind name.now) }
{
    if is_type(name) {
        return Ok(TokenKind::TypeName(ShortBytes::from_slice(alloc, name)?));
    }
    match word_of(name) {
        Some(word) => Ok(TokenKind::Word(word)),
        None => Ok(TokenKind::Name(ShortBytes::from_slice(alloc, name)?)),
    }
}
