//! Tests on a token: which word or sign it is.
ghost use Rattle.std.specs.Prelude.{◌≡◌, ◌≢◌, ◌↔◌, IsTrue, true, false};
ghost use Rattle.pc_token.specs.declared.kinds.TokenKind.TheVariants as kind;
ghost use Rattle.pc_token.specs.Words as spec;

use crate::kinds::{Token, TokenKind};
use crate::signs::Sign;
use crate::words::Word;

#[tactic(auto, unfolding(crate::specs::Words::same_word))]
fn same_word(one: Word, wanted: Word) -> bool
    ensures value { result ≡ spec.same_word one wanted }
    ensures same { result ≡ true → one ≡ wanted }
    ensures other { result ≡ false → one ≢ wanted }
{
    one == wanted
}

#[tactic(auto, unfolding(crate::specs::Words::same_sign))]
fn same_sign(one: Sign, wanted: Sign) -> bool
    ensures value { result ≡ spec.same_sign one wanted }
    ensures same { result ≡ true → one ≡ wanted }
    ensures other { result ≡ false → one ≢ wanted }
{
    one == wanted
}

/// Whether a token is this word.
#[tactic(auto, unfolding(crate::specs::Words::is_word))]
pub fn is_word(token: &Token, word: Word) -> bool
    ensures value { result ≡ spec.is_word word token.now }
    ensures is { IsTrue result ↔ (token.now.kind ≡ kind.Word word) }
{
    match &token.kind {
        TokenKind::Word(found) => same_word(*found, word),
        TokenKind::Name(_)
        | TokenKind::TypeName(_)
        | TokenKind::Number(_)
        | TokenKind::Text(_)
        | TokenKind::Doc
        | TokenKind::Sign(_)
        | TokenKind::End => false,
    }
}

/// Whether a token is this sign.
#[tactic(auto, unfolding(crate::specs::Words::is_sign))]
pub fn is_sign(token: &Token, sign: Sign) -> bool
    ensures value { result ≡ spec.is_sign sign token.now }
    ensures is { IsTrue result ↔ (token.now.kind ≡ kind.Sign sign) }
{
    match &token.kind {
        TokenKind::Sign(found) => same_sign(*found, sign),
        TokenKind::Name(_)
        | TokenKind::TypeName(_)
        | TokenKind::Word(_)
        | TokenKind::Number(_)
        | TokenKind::Text(_)
        | TokenKind::Doc
        | TokenKind::End => false,
    }
}
