//! The parameters of a method.
ghost use Rattle.std.specs.Prelude.{◌≤◌, drop, IfOk};
ghost use Rattle.pc_grammar.specs.ReadingFile as rules;
ghost use Rattle.pc_expr.specs.Gives.{StandsAtToken, Moves, GivesReading};
ghost use Rattle.pc_parse.specs.Parts as parts;

use pc_base::List;
use pc_expr::parsers::{ParseStop, after_comma, look, name, take_sign, written_type};
use pc_token::{Sign, Token, is_sign};
use pc_tree::ParamDef;
use std::alloc::Global;

/// Name ":" Type
#[tactic(auto, unfolding(pc_grammar::specs::ReadingFile::param))]
fn param(alloc: Global, tokens: &[Token], at: usize) -> Result<(ParamDef, usize), ParseStop>
    requires { StandsAtToken tokens.now at }
    ensures gives { GivesReading (λ m. m) tokens.now result (rules.param (drop at tokens.now)) }
    ensures moves { IfOk result (λ r. Moves tokens.now at r.1) }
{
    let (name, to) = name(alloc, tokens, at)?;
    let (_, begin) = take_sign(tokens, to, Sign::Colon)?;
    let (ty, to) = written_type(alloc, tokens, begin)?;
    Ok((ParamDef { name, ty }, to))
}

/// {"," Name ":" Type}, after some parameters.
fn more_params(
    alloc: Global,
    tokens: &[Token],
    at: usize,
    so_far: List<ParamDef>,
) -> Result<(List<ParamDef>, usize), ParseStop>
    requires { StandsAtToken tokens.now at }
    ensures gives { GivesReading (λ m. m) tokens.now result (parts.more_params so_far (drop at tokens.now)) }
    ensures moves { IfOk result (λ r. (at ≤ r.1) × StandsAtToken tokens.now r.1) }
{
    let mut params = so_far;
    let mut to = at;
    'more: while let Some(next) = after_comma(tokens, to) {
        let (one, after) = param(alloc, tokens, next)?;
        params.push(one)?;
        to = after;
    }
    Ok((params, to))
}

/// Name ":" Type {"," Name ":" Type}
#[tactic(auto, unfolding(crate::specs::Parts::some_params))]
fn some_params(
    alloc: Global,
    tokens: &[Token],
    at: usize,
) -> Result<(List<ParamDef>, usize), ParseStop>
    requires { StandsAtToken tokens.now at }
    ensures gives { GivesReading (λ m. m) tokens.now result (parts.some_params (drop at tokens.now)) }
    ensures moves { IfOk result (λ r. Moves tokens.now at r.1) }
{
    let (first, to) = param(alloc, tokens, at)?;
    let mut params = List::new(alloc);
    params.push_within(1, first)?;
    more_params(alloc, tokens, to, params)
}

/// [Name ":" Type {"," Name ":" Type}], before a ")"
#[tactic(auto, using(crate::proofs::Parts::params_by_parts), unfolding(crate::specs::Parts::param_list_parts, pc_grammar::specs::Reading::peek))]
fn param_list(
    alloc: Global,
    tokens: &[Token],
    at: usize,
) -> Result<(List<ParamDef>, usize), ParseStop>
    requires { StandsAtToken tokens.now at }
    ensures gives { GivesReading (λ m. m) tokens.now result (rules.param_list (drop at tokens.now)) }
    ensures moves { IfOk result (λ r. (at ≤ r.1) × StandsAtToken tokens.now r.1) }
{
    if is_sign(look(tokens, at), Sign::CloseParen) {
        return Ok((List::new(alloc), at));
    }
    some_params(alloc, tokens, at)
}

/// "(" [Name ":" Type {"," Name ":" Type}] ")"
#[tactic(auto, unfolding(pc_grammar::specs::ReadingFile::params))]
pub fn params(
    alloc: Global,
    tokens: &[Token],
    at: usize,
) -> Result<(List<ParamDef>, usize), ParseStop>
    requires { StandsAtToken tokens.now at }
    ensures gives { GivesReading (λ m. m) tokens.now result (rules.params (drop at tokens.now)) }
    ensures moves { IfOk result (λ r. Moves tokens.now at r.1) }
{
    let (_, begin) = take_sign(tokens, at, Sign::OpenParen)?;
    let (params, end) = param_list(alloc, tokens, begin)?;
    let (_, to) = take_sign(tokens, end, Sign::CloseParen)?;
    Ok((params, to))
}
