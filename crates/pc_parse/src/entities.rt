//! Entities.
ghost use Rattle.std.specs.Prelude.{◌≡◌, ◌≤◌, drop, map, IfOk, Ok};
ghost use Rattle.pc_tree.specs.View.{entity_view};
ghost use Rattle.pc_grammar.specs.ReadingFile as rules;
ghost use Rattle.pc_expr.specs.Gives.{StandsAtToken, Moves, GivesReading};
ghost use Rattle.pc_parse.specs.Parts as parts;
ghost use Rattle.pc_grammar.specs.Parts.{inner_levels};

use crate::fields::fields;
use crate::methods::methods;
use crate::provides::provides;
use crate::tokens::{after_doc, at_entity, entity_word};
use pc_base::List;
use pc_caps::Cap;
use pc_expr::parsers::{ParseStop, look, maybe_cap, take_word, type_name};
use pc_token::{Token, Word, is_word};
use pc_tree::{Entity, EntityKind};
use std::alloc::Global;

/// [Cap], if such an entity may have one.
fn entity_cap(tokens: &[Token], at: usize, kind: EntityKind) -> (Option<Cap>, usize)
    requires { StandsAtToken tokens.now at }
    ensures gives { rules.entity_cap kind (drop at tokens.now) ≡ Ok (result.0, drop result.1 tokens.now) }
    ensures moves { (at ≤ result.1) × StandsAtToken tokens.now result.1 }
{
    if kind.may_have_cap() {
        maybe_cap(tokens, at)
    } else {
        (None, at)
    }
}

/// An entity of this kind.
#[tactic(auto, unfolding(pc_grammar::specs::ReadingFile::entity_of))]
fn entity_of(
    alloc: Global,
    tokens: &[Token],
    at: usize,
    kind: EntityKind,
) -> Result<(Entity, usize), ParseStop>
    requires { StandsAtToken tokens.now at }
    ensures gives { GivesReading entity_view tokens.now result (rules.entity_of inner_levels kind (drop at tokens.now)) }
    ensures moves { IfOk result (λ r. Moves tokens.now at r.1) }
{
    let (_, begin) = take_word(tokens, at, entity_word(kind))?;
    let (cap, begin) = entity_cap(tokens, begin, kind);
    let (name, to) = type_name(alloc, tokens, begin)?;
    let (provides, to) = provides(alloc, tokens, to)?;
    let to = after_doc(tokens, to);
    let (fields, to) = fields(alloc, tokens, to, kind)?;
    let (methods, to) = methods(alloc, tokens, to, kind)?;
    Ok((
        Entity {
            kind,
            cap,
            name,
            provides,
            fields,
            methods,
        },
        to,
    ))
}

/// ("class" [Cap] | "trait" [Cap] | "interface" [Cap] | "actor" | "primitive") TypeName, and what follows.
#[tactic(auto, unfolding(pc_grammar::specs::ReadingFile::entity, pc_grammar::specs::Reading::peek))]
fn entity(alloc: Global, tokens: &[Token], at: usize) -> Result<(Entity, usize), ParseStop>
    requires { StandsAtToken tokens.now at }
    ensures gives { GivesReading entity_view tokens.now result (rules.entity inner_levels (drop at tokens.now)) }
    ensures moves { IfOk result (λ r. Moves tokens.now at r.1) }
{
    let token = look(tokens, at);
    if is_word(token, Word::ClassWord) {
        entity_of(alloc, tokens, at, EntityKind::Class)
    } else if is_word(token, Word::ActorWord) {
        entity_of(alloc, tokens, at, EntityKind::Actor)
    } else if is_word(token, Word::PrimitiveWord) {
        entity_of(alloc, tokens, at, EntityKind::Primitive)
    } else if is_word(token, Word::TraitWord) {
        entity_of(alloc, tokens, at, EntityKind::Trait)
    } else if is_word(token, Word::InterfaceWord) {
        entity_of(alloc, tokens, at, EntityKind::Interface)
    } else {
        Err(ParseStop::Unexpected(at))
    }
}

/// {Entity}, after some entities.
fn more_entities(
    alloc: Global,
    tokens: &[Token],
    at: usize,
    so_far: List<Entity>,
) -> Result<(List<Entity>, usize), ParseStop>
    requires { StandsAtToken tokens.now at }
    ensures gives { GivesReading (map entity_view) tokens.now result (parts.more_entities (map entity_view so_far) (drop at tokens.now)) }
    ensures moves { IfOk result (λ r. (at ≤ r.1) × StandsAtToken tokens.now r.1) }
{
    let mut entities = so_far;
    let mut to = at;
    'more: while let Some(next) = at_entity(tokens, to) {
        let (one, after) = entity(alloc, tokens, next)?;
        entities.push(one)?;
        to = after;
    }
    Ok((entities, to))
}

/// Entity {Entity}
#[tactic(auto, unfolding(crate::specs::Parts::some_entities))]
pub fn some_entities(
    alloc: Global,
    tokens: &[Token],
    at: usize,
) -> Result<(List<Entity>, usize), ParseStop>
    requires { StandsAtToken tokens.now at }
    ensures gives { GivesReading (map entity_view) tokens.now result (parts.some_entities (drop at tokens.now)) }
    ensures moves { IfOk result (λ r. Moves tokens.now at r.1) }
{
    let (first, to) = entity(alloc, tokens, at)?;
    let mut entities = List::new(alloc);
    entities.push(first)?;
    more_entities(alloc, tokens, to, entities)
}
