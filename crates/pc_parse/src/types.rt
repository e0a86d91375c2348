//! The types of results.
ghost use Rattle.std.specs.Prelude.{◌≡◌, ◌≤◌, drop, IfOk, Ok};
ghost use Rattle.pc_grammar.specs.ReadingFile as rules;
ghost use Rattle.pc_expr.specs.Gives.{StandsAtToken, Moves, GivesReading};

use pc_expr::parsers::{ParseStop, look, maybe_cap, take_sign, type_name};
use pc_token::{Sign, Token, is_sign};
use pc_tree::{MethodWord, TypeRef};
use std::alloc::Global;

/// Whether there is a `^` here, and the place after it.
#[tactic(auto, using(pc_expr::proofs::Ends::is_sign_not_end), unfolding(pc_grammar::specs::ReadingFile::maybe_hat, pc_grammar::specs::Reading::peek, pc_grammar::specs::Reading::take_if))]
fn maybe_hat(tokens: &[Token], at: usize) -> (bool, usize)
    requires { StandsAtToken tokens.now at }
    ensures gives { rules.maybe_hat (drop at tokens.now) ≡ Ok (result.0, drop result.1 tokens.now) }
    ensures moves { (at ≤ result.1) × StandsAtToken tokens.now result.1 }
{
    if is_sign(look(tokens, at), Sign::Caret) {
        (true, at + 1)
    } else {
        (false, at)
    }
}

/// TypeName [Cap] ["^"]
#[tactic(auto, unfolding(pc_grammar::specs::ReadingFile::result_type))]
fn result_type(alloc: Global, tokens: &[Token], at: usize) -> Result<(TypeRef, usize), ParseStop>
    requires { StandsAtToken tokens.now at }
    ensures gives { GivesReading (λ m. m) tokens.now result (rules.result_type (drop at tokens.now)) }
    ensures moves { IfOk result (λ r. Moves tokens.now at r.1) }
{
    let (name, to) = type_name(alloc, tokens, at)?;
    let (cap, to) = maybe_cap(tokens, to);
    let (hat, to) = maybe_hat(tokens, to);
    Ok((TypeRef { name, cap, hat }, to))
}

/// [":" Result]
#[tactic(auto, unfolding(pc_grammar::specs::ReadingFile::returns, pc_grammar::specs::Reading::peek))]
fn returns(
    alloc: Global,
    tokens: &[Token],
    at: usize,
) -> Result<(Option<TypeRef>, usize), ParseStop>
    requires { StandsAtToken tokens.now at }
    ensures gives { GivesReading (λ m. m) tokens.now result (rules.returns (drop at tokens.now)) }
    ensures moves { IfOk result (λ r. (at ≤ r.1) × StandsAtToken tokens.now r.1) }
{
    if !is_sign(look(tokens, at), Sign::Colon) {
        return Ok((None, at));
    }
    let (_, begin) = take_sign(tokens, at, Sign::Colon)?;
    let (ty, to) = result_type(alloc, tokens, begin)?;
    Ok((Some(ty), to))
}

/// [":" Result], if such a method may have one.
pub fn method_result(
    alloc: Global,
    tokens: &[Token],
    at: usize,
    word: MethodWord,
) -> Result<(Option<TypeRef>, usize), ParseStop>
    requires { StandsAtToken tokens.now at }
    ensures gives { GivesReading (λ m. m) tokens.now result (rules.method_result word (drop at tokens.now)) }
    ensures moves { IfOk result (λ r. (at ≤ r.1) × StandsAtToken tokens.now r.1) }
{
    match word {
        MethodWord::Fun => returns(alloc, tokens, at),
        MethodWord::Be | MethodWord::New => Ok((None, at)),
    }
}
