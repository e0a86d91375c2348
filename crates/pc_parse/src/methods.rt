//! Methods.
ghost use Rattle.std.specs.Prelude.{◌≡◌, ◌≤◌, drop, map, IfOk, Ok};
ghost use Rattle.pc_tree.specs.View.{maybe_seq, method_view};
ghost use Rattle.pc_grammar.specs.ReadingFile as rules;
ghost use Rattle.pc_expr.specs.Gives.{StandsAtToken, Moves, GivesReading};
ghost use Rattle.pc_parse.specs.Parts as parts;
ghost use Rattle.pc_grammar.specs.Parts.{inner_levels};

use crate::levels::INNER_LEVELS;
use crate::parameters::params;
use crate::tokens::{after_doc, at_method, begins, method_word};
use crate::types::method_result;
use pc_base::List;
use pc_caps::Cap;
use pc_expr::parsers::{ParseStop, look, maybe_cap, name, seq, take_sign, take_word};
use pc_token::{Sign, Token, is_sign};
use pc_tree::{EntityKind, MethodDef, MethodWord, Seq};
use std::alloc::Global;

/// [Cap], if such a method of such an entity may have one.
fn method_cap(
    tokens: &[Token],
    at: usize,
    kind: EntityKind,
    word: MethodWord,
) -> (Option<Cap>, usize)
    requires { StandsAtToken tokens.now at }
    ensures gives { rules.method_cap kind word (drop at tokens.now) ≡ Ok (result.0, drop result.1 tokens.now) }
    ensures moves { (at ≤ result.1) × StandsAtToken tokens.now result.1 }
{
    if kind.may_have_method_cap(word) {
        maybe_cap(tokens, at)
    } else {
        (None, at)
    }
}

/// "=>" [doc] Seq
#[tactic(auto, unfolding(pc_grammar::specs::ReadingFile::written_body))]
fn written_body(
    alloc: Global,
    tokens: &[Token],
    at: usize,
) -> Result<(Option<Seq>, usize), ParseStop>
    requires { StandsAtToken tokens.now at }
    ensures gives { GivesReading maybe_seq tokens.now result (rules.written_body inner_levels (drop at tokens.now)) }
    ensures moves { IfOk result (λ r. (at ≤ r.1) × StandsAtToken tokens.now r.1) }
{
    let (_, begin) = take_sign(tokens, at, Sign::Arrow)?;
    let begin = after_doc(tokens, begin);
    let (body, to) = seq(alloc, tokens, begin, INNER_LEVELS)?;
    Ok((Some(body), to))
}

/// ["=>" [doc] Seq]
#[tactic(auto, unfolding(pc_grammar::specs::ReadingFile::maybe_body, pc_grammar::specs::Reading::peek))]
fn maybe_body(alloc: Global, tokens: &[Token], at: usize) -> Result<(Option<Seq>, usize), ParseStop>
    requires { StandsAtToken tokens.now at }
    ensures gives { GivesReading maybe_seq tokens.now result (rules.maybe_body inner_levels (drop at tokens.now)) }
    ensures moves { IfOk result (λ r. (at ≤ r.1) × StandsAtToken tokens.now r.1) }
{
    if is_sign(look(tokens, at), Sign::Arrow) {
        written_body(alloc, tokens, at)
    } else {
        Ok((None, at))
    }
}

/// "=>" [doc] Seq, which is optional in a trait or an interface.
fn body(
    alloc: Global,
    tokens: &[Token],
    at: usize,
    kind: EntityKind,
) -> Result<(Option<Seq>, usize), ParseStop>
    requires { StandsAtToken tokens.now at }
    ensures gives { GivesReading maybe_seq tokens.now result (rules.body inner_levels kind (drop at tokens.now)) }
    ensures moves { IfOk result (λ r. (at ≤ r.1) × StandsAtToken tokens.now r.1) }
{
    if kind.is_abstract() {
        maybe_body(alloc, tokens, at)
    } else {
        written_body(alloc, tokens, at)
    }
}

/// "fun" [Cap] Name Params [":" Result] [doc] [Body], or one of the other two.
#[tactic(auto, unfolding(pc_grammar::specs::ReadingFile::method_of))]
fn method_of(
    alloc: Global,
    tokens: &[Token],
    at: usize,
    kind: EntityKind,
    word: MethodWord,
) -> Result<(MethodDef, usize), ParseStop>
    requires { StandsAtToken tokens.now at }
    ensures gives { GivesReading method_view tokens.now result (rules.method_of inner_levels kind word (drop at tokens.now)) }
    ensures moves { IfOk result (λ r. Moves tokens.now at r.1) }
{
    let (_, begin) = take_word(tokens, at, method_word(word))?;
    let (cap, begin) = method_cap(tokens, begin, kind, word);
    let (name, to) = name(alloc, tokens, begin)?;
    let (params, to) = params(alloc, tokens, to)?;
    let (result, to) = method_result(alloc, tokens, to, word)?;
    let to = after_doc(tokens, to);
    let (body, to) = body(alloc, tokens, to, kind)?;
    Ok((
        MethodDef {
            word,
            cap,
            name,
            params,
            result,
            body,
        },
        to,
    ))
}

/// A method of such an entity, by its keyword.
#[tactic(auto, unfolding(pc_grammar::specs::ReadingFile::some_method, pc_grammar::specs::Reading::peek))]
fn some_method(
    alloc: Global,
    tokens: &[Token],
    at: usize,
    kind: EntityKind,
) -> Result<(MethodDef, usize), ParseStop>
    requires { StandsAtToken tokens.now at }
    ensures gives { GivesReading method_view tokens.now result (rules.some_method inner_levels kind (drop at tokens.now)) }
    ensures moves { IfOk result (λ r. Moves tokens.now at r.1) }
{
    let token = look(tokens, at);
    if begins(kind, MethodWord::Fun, token) {
        method_of(alloc, tokens, at, kind, MethodWord::Fun)
    } else if begins(kind, MethodWord::Be, token) {
        method_of(alloc, tokens, at, kind, MethodWord::Be)
    } else {
        method_of(alloc, tokens, at, kind, MethodWord::New)
    }
}

/// {Method}
pub fn methods(
    alloc: Global,
    tokens: &[Token],
    at: usize,
    kind: EntityKind,
) -> Result<(List<MethodDef>, usize), ParseStop>
    requires { StandsAtToken tokens.now at }
    ensures gives { GivesReading (map method_view) tokens.now result (parts.all_methods kind (drop at tokens.now)) }
    ensures moves { IfOk result (λ r. (at ≤ r.1) × StandsAtToken tokens.now r.1) }
{
    let mut methods = List::new(alloc);
    let mut to = at;
    'more: while let Some(next) = at_method(tokens, to, kind) {
        let (one, after) = some_method(alloc, tokens, next, kind)?;
        methods.push(one)?;
        to = after;
    }
    Ok((methods, to))
}
