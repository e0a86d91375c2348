//! The public calls.
ghost use Rattle.std.specs.Prelude.{◌<◌, ◌≤◌, ◌-◌, IfOk, IfErr, length};
ghost use Rattle.pc_tree.specs.View.{expr_view, seq_view};
ghost use Rattle.pc_tree.specs.Depths as levels;
ghost use Rattle.pc_grammar.specs.Spells.{Spells, SpellsInfix, SpellsSeq, level_limit};
ghost use Rattle.pc_expr.specs.Gives.{EndsWithEnd};
ghost use Rattle.pc_expr.specs.Answers.{Places, ReadsTo, RefusesTree, IsOnly, StopsAtToken, NamesByte};

use crate::fault::ParseFault;
use crate::rules;
use crate::stop::ParseStop;
use pc_token::Token;
use pc_tree::{Expr, Seq};
use std::alloc::Global;

/// How many nested levels may be opened.
pub const LEVELS: u16 = 200;

fn begin(tokens: &[Token], at: usize) -> u32
    requires { at < length tokens.now }
    ensures { Places tokens.now at result }
{
    tokens[at].span.start
}

/// The fault of a stop, with the offset of its token.
pub fn fault(tokens: &[Token], stop: ParseStop) -> ParseFault
    requires { StopsAtToken tokens.now stop }
    ensures { NamesByte tokens.now stop result }
{
    match stop {
        ParseStop::Unexpected(at) => ParseFault::Unexpected(begin(tokens, at)),
        ParseStop::TooDeep(at) => ParseFault::TooDeep(begin(tokens, at)),
        ParseStop::Memory => ParseFault::Memory,
    }
}

/// The sequence that the tokens spell from a place on, and the place of the first token that does not continue it.
///
/// `level` is the level of the sequence: a body is at level 1. The grammar is that of `docs/grammar.md`; reading
/// continues as long as some sequence, of any depth, begins with the tokens so far. `Unexpected` names the first token
/// with which none begins, if those before it spell none; `TooDeep` the first token that opens level 201.
pub fn seq(
    alloc: Global,
    tokens: &[Token],
    at: usize,
    level: u16,
) -> Result<(Seq, usize), ParseFault>
    requires ends { EndsWithEnd tokens.now }
    requires within { at < length tokens.now }
    requires level { level ≤ level_limit }
    // The tree that the tokens spell up to the place, at which nothing continues it.
    ensures read { IfOk result (λ r. ReadsTo SpellsSeq levels.seq_depth (level_limit - level) tokens.now at (seq_view r.0) r.1) }
    // Why there is none, or memory ran out.
    ensures refused { IfErr result (RefusesTree SpellsSeq levels.seq_depth (level_limit - level) tokens.now at) }
    // Whatever answer holds for the tokens is the result, unless memory ran out.
    ensures exact { IsOnly SpellsSeq levels.seq_depth (level_limit - level) seq_view tokens.now at result }
{
    match rules::seq(alloc, tokens, at, LEVELS - level) {
        Ok(read) => Ok(read),
        Err(stop) => Err(fault(tokens, stop)),
    }
}

/// The expression that the tokens spell from a place on, as with `seq`.
pub fn expr(
    alloc: Global,
    tokens: &[Token],
    at: usize,
    level: u16,
) -> Result<(Expr, usize), ParseFault>
    requires ends { EndsWithEnd tokens.now }
    requires within { at < length tokens.now }
    requires level { level ≤ level_limit }
    // The tree that the tokens spell up to the place, at which nothing continues it.
    ensures read { IfOk result (λ r. ReadsTo Spells levels.depth (level_limit - level) tokens.now at (expr_view r.0) r.1) }
    // Why there is none, or memory ran out.
    ensures refused { IfErr result (RefusesTree Spells levels.depth (level_limit - level) tokens.now at) }
    // Whatever answer holds for the tokens is the result, unless memory ran out.
    ensures exact { IsOnly Spells levels.depth (level_limit - level) expr_view tokens.now at result }
{
    match rules::expr(alloc, tokens, at, LEVELS - level) {
        Ok(read) => Ok(read),
        Err(stop) => Err(fault(tokens, stop)),
    }
}

/// The expression without `=` that the tokens spell from a place on, as with `seq`.
pub fn infix(
    alloc: Global,
    tokens: &[Token],
    at: usize,
    level: u16,
) -> Result<(Expr, usize), ParseFault>
    requires ends { EndsWithEnd tokens.now }
    requires within { at < length tokens.now }
    requires level { level ≤ level_limit }
    // The tree that the tokens spell up to the place, at which nothing continues it.
    ensures read { IfOk result (λ r. ReadsTo SpellsInfix levels.depth (level_limit - level) tokens.now at (expr_view r.0) r.1) }
    // Why there is none, or memory ran out.
    ensures refused { IfErr result (RefusesTree SpellsInfix levels.depth (level_limit - level) tokens.now at) }
    // Whatever answer holds for the tokens is the result, unless memory ran out.
    ensures exact { IsOnly SpellsInfix levels.depth (level_limit - level) expr_view tokens.now at result }
{
    match rules::infix(alloc, tokens, at, LEVELS - level) {
        Ok(read) => Ok(read),
        Err(stop) => Err(fault(tokens, stop)),
    }
}
