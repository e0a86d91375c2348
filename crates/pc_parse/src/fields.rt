//! Fields.
ghost use Rattle.std.specs.Prelude.{◌≤◌, drop, map, IfOk};
ghost use Rattle.pc_tree.specs.View.{maybe_expr, field_view};
ghost use Rattle.pc_grammar.specs.ReadingFile as rules;
ghost use Rattle.pc_expr.specs.Gives.{StandsAtToken, Moves, GivesReading};
ghost use Rattle.pc_parse.specs.Parts as parts;
ghost use Rattle.pc_grammar.specs.Parts.{inner_levels};

use crate::levels::INNER_LEVELS;
use crate::tokens::{after_doc, at_field};
use pc_base::List;
use pc_expr::parsers::{
    ParseStop, infix, local_word, look, name, take_sign, take_word, written_type,
};
use pc_token::{Sign, Token, Word, is_sign, is_word};
use pc_tree::{EntityKind, Expr, FieldDef};
use std::alloc::Global;

/// ["=" Infix]
#[tactic(auto, unfolding(pc_grammar::specs::ReadingFile::value, pc_grammar::specs::Reading::peek))]
fn value(alloc: Global, tokens: &[Token], at: usize) -> Result<(Option<Expr>, usize), ParseStop>
    requires { StandsAtToken tokens.now at }
    ensures gives { GivesReading maybe_expr tokens.now result (rules.value inner_levels (drop at tokens.now)) }
    ensures moves { IfOk result (λ r. (at ≤ r.1) × StandsAtToken tokens.now r.1) }
{
    if !is_sign(look(tokens, at), Sign::Assign) {
        return Ok((None, at));
    }
    let (_, begin) = take_sign(tokens, at, Sign::Assign)?;
    let (e, to) = infix(alloc, tokens, begin, INNER_LEVELS)?;
    Ok((Some(e), to))
}

/// ("var" | "let") Name ":" Type ["=" Infix] [doc], with this keyword.
#[tactic(auto, unfolding(pc_grammar::specs::ReadingFile::field))]
fn field(
    alloc: Global,
    tokens: &[Token],
    at: usize,
    fixed: bool,
) -> Result<(FieldDef, usize), ParseStop>
    requires { StandsAtToken tokens.now at }
    ensures gives { GivesReading field_view tokens.now result (rules.field inner_levels fixed (drop at tokens.now)) }
    ensures moves { IfOk result (λ r. Moves tokens.now at r.1) }
{
    let (_, begin) = take_word(tokens, at, local_word(fixed))?;
    let (name, to) = name(alloc, tokens, begin)?;
    let (_, begin) = take_sign(tokens, to, Sign::Colon)?;
    let (ty, to) = written_type(alloc, tokens, begin)?;
    let (value, to) = value(alloc, tokens, to)?;
    let to = after_doc(tokens, to);
    Ok((
        FieldDef {
            fixed,
            name,
            ty,
            value,
        },
        to,
    ))
}

/// ("var" | "let") Name ":" Type ["=" Infix] [doc]
#[tactic(auto, unfolding(pc_grammar::specs::ReadingFile::some_field, pc_grammar::specs::Reading::peek))]
fn some_field(alloc: Global, tokens: &[Token], at: usize) -> Result<(FieldDef, usize), ParseStop>
    requires { StandsAtToken tokens.now at }
    ensures gives { GivesReading field_view tokens.now result (rules.some_field inner_levels (drop at tokens.now)) }
    ensures moves { IfOk result (λ r. Moves tokens.now at r.1) }
{
    let fixed = is_word(look(tokens, at), Word::LetWord);
    field(alloc, tokens, at, fixed)
}

/// {Field}
fn all_fields(
    alloc: Global,
    tokens: &[Token],
    at: usize,
) -> Result<(List<FieldDef>, usize), ParseStop>
    requires { StandsAtToken tokens.now at }
    ensures gives { GivesReading (map field_view) tokens.now result (parts.all_fields (drop at tokens.now)) }
    ensures moves { IfOk result (λ r. (at ≤ r.1) × StandsAtToken tokens.now r.1) }
{
    let mut fields = List::new(alloc);
    let mut to = at;
    'more: while let Some(next) = at_field(tokens, to) {
        let (one, after) = some_field(alloc, tokens, next)?;
        fields.push(one)?;
        to = after;
    }
    Ok((fields, to))
}

/// {Field}, in an entity that may have fields.
pub fn fields(
    alloc: Global,
    tokens: &[Token],
    at: usize,
    kind: EntityKind,
) -> Result<(List<FieldDef>, usize), ParseStop>
    requires { StandsAtToken tokens.now at }
    ensures gives { GivesReading (map field_view) tokens.now result (rules.fields inner_levels kind (drop at tokens.now)) }
    ensures moves { IfOk result (λ r. (at ≤ r.1) × StandsAtToken tokens.now r.1) }
{
    if kind.may_have_fields() {
        all_fields(alloc, tokens, at)
    } else {
        Ok((List::new(alloc), at))
    }
}
