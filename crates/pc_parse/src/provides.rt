//! The type names after `is`.
ghost use Rattle.std.specs.Prelude.{◌≤◌, drop, IfOk};
ghost use Rattle.pc_grammar.specs.ReadingFile as rules;
ghost use Rattle.pc_expr.specs.Gives.{StandsAtToken, Moves, GivesReading};
ghost use Rattle.pc_parse.specs.Parts as parts;

use crate::tokens::after_ampersand;
use pc_base::List;
use pc_expr::parsers::{ParseStop, look, take_sign, take_word, type_name};
use pc_token::{Sign, Token, Word, is_sign, is_word};
use pc_tree::Name;
use std::alloc::Global;

/// {"&" TypeName}, after some type names.
fn more_type_names(
    alloc: Global,
    tokens: &[Token],
    at: usize,
    so_far: List<Name>,
) -> Result<(List<Name>, usize), ParseStop>
    requires { StandsAtToken tokens.now at }
    ensures gives { GivesReading (λ m. m) tokens.now result (parts.more_type_names so_far (drop at tokens.now)) }
    ensures moves { IfOk result (λ r. (at ≤ r.1) × StandsAtToken tokens.now r.1) }
{
    let mut names = so_far;
    let mut to = at;
    'more: while let Some(next) = after_ampersand(tokens, to) {
        let (one, after) = type_name(alloc, tokens, next)?;
        names.push(one)?;
        to = after;
    }
    Ok((names, to))
}

/// TypeName {"&" TypeName}
#[tactic(auto, using(crate::proofs::Parts::type_names_by_parts), unfolding(crate::specs::Parts::some_type_names))]
fn type_names(alloc: Global, tokens: &[Token], at: usize) -> Result<(List<Name>, usize), ParseStop>
    requires { StandsAtToken tokens.now at }
    ensures gives { GivesReading (λ m. m) tokens.now result (rules.type_names (drop at tokens.now)) }
    ensures moves { IfOk result (λ r. Moves tokens.now at r.1) }
{
    let (first, to) = type_name(alloc, tokens, at)?;
    let mut names = List::new(alloc);
    names.push_within(2, first)?;
    more_type_names(alloc, tokens, to, names)
}

/// TypeName, as a list of one.
#[tactic(auto, unfolding(crate::specs::Parts::one_type_name))]
fn one_type_name(
    alloc: Global,
    tokens: &[Token],
    at: usize,
) -> Result<(List<Name>, usize), ParseStop>
    requires { StandsAtToken tokens.now at }
    ensures gives { GivesReading (λ m. m) tokens.now result (parts.one_type_name (drop at tokens.now)) }
    ensures moves { IfOk result (λ r. Moves tokens.now at r.1) }
{
    let (name, to) = type_name(alloc, tokens, at)?;
    let mut names = List::new(alloc);
    names.push_within(1, name)?;
    Ok((names, to))
}

/// TypeName  |  "(" TypeName {"&" TypeName} ")"
#[tactic(auto, unfolding(pc_grammar::specs::ReadingFile::provided, crate::specs::Parts::one_type_name, pc_grammar::specs::Reading::peek))]
fn provided(alloc: Global, tokens: &[Token], at: usize) -> Result<(List<Name>, usize), ParseStop>
    requires { StandsAtToken tokens.now at }
    ensures gives { GivesReading (λ m. m) tokens.now result (rules.provided (drop at tokens.now)) }
    ensures moves { IfOk result (λ r. Moves tokens.now at r.1) }
{
    if !is_sign(look(tokens, at), Sign::OpenParen) {
        return one_type_name(alloc, tokens, at);
    }
    let (_, begin) = take_sign(tokens, at, Sign::OpenParen)?;
    let (names, end) = type_names(alloc, tokens, begin)?;
    let (_, to) = take_sign(tokens, end, Sign::CloseParen)?;
    Ok((names, to))
}

/// ["is" (TypeName | "(" TypeName {"&" TypeName} ")")]
#[tactic(auto, unfolding(pc_grammar::specs::ReadingFile::provides, pc_grammar::specs::Reading::peek))]
pub fn provides(
    alloc: Global,
    tokens: &[Token],
    at: usize,
) -> Result<(List<Name>, usize), ParseStop>
    requires { StandsAtToken tokens.now at }
    ensures gives { GivesReading (λ m. m) tokens.now result (rules.provides (drop at tokens.now)) }
    ensures moves { IfOk result (λ r. (at ≤ r.1) × StandsAtToken tokens.now r.1) }
{
    if !is_word(look(tokens, at), Word::IsWord) {
        return Ok((List::new(alloc), at));
    }
    let (_, begin) = take_word(tokens, at, Word::IsWord)?;
    provided(alloc, tokens, begin)
}
