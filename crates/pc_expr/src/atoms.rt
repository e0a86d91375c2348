//! Names, capabilities, written types and the atoms of one token.
ghost use Rattle.std.specs.Prelude.{◌≡◌, ◌≤◌, drop, IfOk, Ok};
ghost use Rattle.pc_tree.specs.View.{expr_view};
ghost use Rattle.pc_grammar.specs.Reading as reading;
ghost use Rattle.pc_expr.specs.Gives.{StandsAtToken, Moves, GivesReading};
ghost use Rattle.pc_expr.specs.Onto as onto;

use crate::stop::ParseStop;
use crate::tokens::{look, take_sign, take_word};
use pc_base::{SharedList, ShortBytes};
use pc_caps::Cap;
use pc_grammar::cap_of;
use pc_token::{Sign, Token, TokenKind, Word, is_sign};
use pc_tree::{Expr, Name, TypeRef, join};
use std::alloc::Global;

/// A name.
#[tactic(auto, unfolding(pc_grammar::specs::Reading::name, pc_grammar::specs::Reading::peek, pc_grammar::specs::Reading::take_if))]
pub fn name(alloc: Global, tokens: &[Token], at: usize) -> Result<(Name, usize), ParseStop>
    requires { StandsAtToken tokens.now at }
    ensures gives { GivesReading (λ m. m) tokens.now result (reading.name (drop at tokens.now)) }
    ensures moves { IfOk result (λ r. Moves tokens.now at r.1) }
{
    let token = look(tokens, at);
    match &token.kind {
        TokenKind::Name(text) => {
            let text = ShortBytes::from_slice(alloc, text.as_slice())?;
            let span = token.span;
            Ok((Name { text, span }, at + 1))
        }
        TokenKind::TypeName(_)
        | TokenKind::Word(_)
        | TokenKind::Number(_)
        | TokenKind::Text(_)
        | TokenKind::Doc
        | TokenKind::Sign(_)
        | TokenKind::End => Err(ParseStop::Unexpected(at)),
    }
}

/// A type name.
#[tactic(auto, unfolding(pc_grammar::specs::Reading::type_name, pc_grammar::specs::Reading::peek, pc_grammar::specs::Reading::take_if))]
pub fn type_name(alloc: Global, tokens: &[Token], at: usize) -> Result<(Name, usize), ParseStop>
    requires { StandsAtToken tokens.now at }
    ensures gives { GivesReading (λ m. m) tokens.now result (reading.type_name (drop at tokens.now)) }
    ensures moves { IfOk result (λ r. Moves tokens.now at r.1) }
{
    let token = look(tokens, at);
    match &token.kind {
        TokenKind::TypeName(text) => {
            let text = ShortBytes::from_slice(alloc, text.as_slice())?;
            let span = token.span;
            Ok((Name { text, span }, at + 1))
        }
        TokenKind::Name(_)
        | TokenKind::Word(_)
        | TokenKind::Number(_)
        | TokenKind::Text(_)
        | TokenKind::Doc
        | TokenKind::Sign(_)
        | TokenKind::End => Err(ParseStop::Unexpected(at)),
    }
}

/// A capability, if one is written, and the place after it.
#[tactic(auto, using(crate::proofs::Ends::is_cap_not_end), unfolding(pc_grammar::specs::Reading::maybe_cap, pc_grammar::specs::Reading::peek, pc_grammar::specs::Reading::take_if))]
pub fn maybe_cap(tokens: &[Token], at: usize) -> (Option<Cap>, usize)
    requires { StandsAtToken tokens.now at }
    ensures gives { reading.maybe_cap (drop at tokens.now) ≡ Ok (result.0, drop result.1 tokens.now) }
    ensures moves { (at ≤ result.1) × StandsAtToken tokens.now result.1 }
{
    match cap_of(look(tokens, at)) {
        Some(cap) => (Some(cap), at + 1),
        None => (None, at),
    }
}

/// A type, as in locals, fields and parameters: without a `^`.
#[tactic(auto, unfolding(pc_grammar::specs::Reading::written_type))]
pub fn written_type(
    alloc: Global,
    tokens: &[Token],
    at: usize,
) -> Result<(TypeRef, usize), ParseStop>
    requires { StandsAtToken tokens.now at }
    ensures gives { GivesReading (λ m. m) tokens.now result (reading.written_type (drop at tokens.now)) }
    ensures moves { IfOk result (λ r. Moves tokens.now at r.1) }
{
    let (name, to) = type_name(alloc, tokens, at)?;
    let (cap, to) = maybe_cap(tokens, to);
    let hat = false;
    Ok((TypeRef { name, cap, hat }, to))
}

/// A type after a `:`, if one is written.
#[tactic(auto, unfolding(pc_grammar::specs::Reading::maybe_type, pc_grammar::specs::Reading::peek))]
pub fn maybe_type(
    alloc: Global,
    tokens: &[Token],
    at: usize,
) -> Result<(Option<TypeRef>, usize), ParseStop>
    requires { StandsAtToken tokens.now at }
    ensures gives { GivesReading (λ m. m) tokens.now result (reading.maybe_type (drop at tokens.now)) }
    ensures moves { IfOk result (λ r. (at ≤ r.1) × StandsAtToken tokens.now r.1) }
{
    if !is_sign(look(tokens, at), Sign::Colon) {
        return Ok((None, at));
    }
    let (_, begin) = take_sign(tokens, at, Sign::Colon)?;
    let (ty, to) = written_type(alloc, tokens, begin)?;
    Ok((Some(ty), to))
}

/// A name as an expression.
#[tactic(auto, using(pc_tree::proofs::Views::view_name), unfolding(crate::specs::Onto::named))]
pub fn named(alloc: Global, tokens: &[Token], at: usize) -> Result<(Expr, usize), ParseStop>
    requires { StandsAtToken tokens.now at }
    ensures gives { GivesReading expr_view tokens.now result (onto.named (drop at tokens.now)) }
    ensures moves { IfOk result (λ r. Moves tokens.now at r.1) }
{
    let (name, to) = name(alloc, tokens, at)?;
    Ok((Expr::Name(name), to))
}

/// A type name as an expression.
#[tactic(auto, using(pc_tree::proofs::Views::view_type_name), unfolding(crate::specs::Onto::type_named))]
pub fn type_named(alloc: Global, tokens: &[Token], at: usize) -> Result<(Expr, usize), ParseStop>
    requires { StandsAtToken tokens.now at }
    ensures gives { GivesReading expr_view tokens.now result (onto.type_named (drop at tokens.now)) }
    ensures moves { IfOk result (λ r. Moves tokens.now at r.1) }
{
    let (name, to) = type_name(alloc, tokens, at)?;
    Ok((Expr::TypeName(name), to))
}

/// `consume` and a name.
#[tactic(auto, using(pc_tree::proofs::Views::view_consume), unfolding(pc_grammar::specs::Reading::consume))]
pub fn consume(alloc: Global, tokens: &[Token], at: usize) -> Result<(Expr, usize), ParseStop>
    requires { StandsAtToken tokens.now at }
    ensures gives { GivesReading expr_view tokens.now result (reading.consume (drop at tokens.now)) }
    ensures moves { IfOk result (λ r. Moves tokens.now at r.1) }
{
    let (opener, begin) = take_word(tokens, at, Word::ConsumeWord)?;
    let (name, to) = name(alloc, tokens, begin)?;
    let span = join(opener.span, name.span);
    Ok((Expr::Consume { name, span }, to))
}

/// A text literal.
#[tactic(auto, using(pc_tree::proofs::Views::view_text), unfolding(crate::specs::Onto::text_at, pc_grammar::specs::Reading::peek, pc_grammar::specs::Reading::take_if))]
pub fn text(alloc: Global, tokens: &[Token], at: usize) -> Result<(Expr, usize), ParseStop>
    requires { StandsAtToken tokens.now at }
    ensures gives { GivesReading expr_view tokens.now result (onto.text_at (drop at tokens.now)) }
    ensures moves { IfOk result (λ r. Moves tokens.now at r.1) }
{
    let token = look(tokens, at);
    match &token.kind {
        TokenKind::Text(bytes) => {
            let bytes = SharedList::from_slice(alloc, bytes.as_slice())?;
            let span = token.span;
            Ok((Expr::Text { bytes, span }, at + 1))
        }
        TokenKind::Name(_)
        | TokenKind::TypeName(_)
        | TokenKind::Word(_)
        | TokenKind::Number(_)
        | TokenKind::Doc
        | TokenKind::Sign(_)
        | TokenKind::End => Err(ParseStop::Unexpected(at)),
    }
}
