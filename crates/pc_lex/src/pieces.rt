//! What a text begins with: a gap, a token, or a fault.
ghost use Rattle.std.specs.Prelude.{◌≡◌, ◌<◌, ◌≤◌, [], ◌∷◌, length, true, IfOk, IfErr};
ghost use Rattle.pc_lex.specs.Pieces.{begins};
ghost use Rattle.pc_lex.specs.Reading as reading;
ghost use Rattle.pc_lex.specs.Reading.{GivesRead, StopWithin};

use crate::classes::{Class, is_blank, run};
use crate::comments::block_len;
use crate::name_tokens::{name_kind, name_len};
use crate::numbers::number_at;
use crate::texts::{EscapeFault, begins_doc, doc_len, quote_len, text_value};
use pc_token::{TokenKind, sign_at};
use std::alloc::{AllocError, Global};

/// What a text begins with: a blank or a comment, or a token.
#[derive(Debug, Drop)]
pub enum Found {
    /// A blank or a comment.
    Gap,
    /// A token of this kind.
    Token(TokenKind),
}

/// Why a text begins with none of these.
#[derive(Debug)]
pub enum LexStop {
    /// Nothing begins with this byte.
    BadByte,
    /// The comment, text or doc that begins here does not end.
    Unclosed,
    /// The digits that begin here are no number.
    BadNumber,
    /// The text literal has a bad escape, at this offset from its start.
    BadEscape(usize),
    /// Memory ran out.
    Memory,
}

impl From<AllocError> for LexStop {
    ghost use Rattle.pc_lex.specs.declared.pieces.LexStop.TheVariants.{Memory};

    ghost from_gives = { λ _ e. e ≡ Memory };

    fn from(_: AllocError) -> LexStop {
        LexStop::Memory
    }
}

/// The text literal at the front of a text that begins with `"`, and its length.
#[tactic(auto, using(crate::proofs::TextCut::text_found), unfolding(crate::specs::Reading::text_at))]
fn text_at(alloc: Global, text: &[u8]) -> Result<(Found, usize), LexStop>
    requires { 0 < length text.now }
    ensures gives { GivesRead result (reading.text_at text.now) }
    ensures within { IfOk result (λ r. r.1 ≤ length text.now) }
    ensures short { IfErr result (StopWithin (length text.now)) }
{
    let n = match quote_len(&text[1..]) {
        Some(n) => n,
        None => return Err(LexStop::Unclosed),
    };
    match text_value(alloc, &text[1..n + 1]) {
        Ok(value) => Ok((Found::Token(TokenKind::Text(value)), n + 2)),
        Err(EscapeFault::BadEscape(at)) => Err(LexStop::BadEscape(at + 1)),
        Err(EscapeFault::Memory) => Err(LexStop::Memory),
    }
}

/// The doc at the front of a text that begins with `"""`, and its length.
#[tactic(auto, unfolding(crate::specs::Reading::doc_at))]
fn doc_at(text: &[u8]) -> Result<(Found, usize), LexStop>
    requires { 3 ≤ length text.now }
    ensures gives { GivesRead result (reading.doc_at text.now) }
    ensures within { IfOk result (λ r. r.1 ≤ length text.now) }
    ensures short { IfErr result (StopWithin (length text.now)) }
{
    match doc_len(&text[3..]) {
        Some(n) => Ok((Found::Token(TokenKind::Doc), n + 6)),
        None => Err(LexStop::Unclosed),
    }
}

/// Whether a text begins with `/` and this byte.
#[tactic(auto, using(crate::proofs::CommentEnds::slash_one, crate::proofs::CommentEnds::slash_two))]
fn begins_slash(text: &[u8], second: u8) -> bool
    requires { 0 < length text.now }
    ensures value { result ≡ begins text.now (47 ∷ second ∷ []) }
    ensures within { result ≡ true → 2 ≤ length text.now }
{
    text[0] == b'/' && text.len() > 1 && text[1] == second
}

/// The blank, comment or token that begins the text, and its length.
#[tactic(auto, unfolding(crate::specs::Reading::piece_at))]
pub fn piece_at(alloc: Global, text: &[u8]) -> Result<(Found, usize), LexStop>
    requires { 0 < length text.now }
    ensures gives { GivesRead result (reading.piece_at text.now) }
    ensures within { IfOk result (λ r. r.1 ≤ length text.now) }
    ensures short { IfErr result (StopWithin (length text.now)) }
{
    if is_blank(text[0]) {
        return Ok((Found::Gap, 1));
    }
    if begins_slash(text, b'/') {
        return Ok((Found::Gap, 2 + run(Class::Line, &text[2..])));
    }
    if begins_slash(text, b'*') {
        return match block_len(&text[2..]) {
            Some(n) => Ok((Found::Gap, 2 + n)),
            None => Err(LexStop::Unclosed),
        };
    }
    if text[0].is_ascii_digit() {
        return number_at(text);
    }
    if begins_doc(text) {
        return doc_at(text);
    }
    if text[0] == b'"' {
        return text_at(alloc, text);
    }
    let n = name_len(text);
    if n > 0 {
        return Ok((Found::Token(name_kind(alloc, &text[..n])?), n));
    }
    match sign_at(text) {
        Some((sign, n)) => Ok((Found::Token(TokenKind::Sign(sign)), n)),
        None => Err(LexStop::BadByte),
    }
}
