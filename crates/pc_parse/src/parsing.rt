//! Whole files.
ghost use Rattle.std.specs.Prelude.{◌≤◌, length, IfOk, IfErr};
ghost use Rattle.pc_tree.specs.View.{file_view};
ghost use Rattle.pc_grammar.specs.ReadingFile as rules;
ghost use Rattle.pc_grammar.specs.FileAnswers.{IsFileAnswer, spelled};
ghost use Rattle.pc_grammar.specs.Parts.{inner_levels};
ghost use Rattle.pc_expr.specs.Gives.{EndsWithEnd, StandsAtToken, GivesReading};
ghost use Rattle.pc_parse.specs.Answers.{StopsRight, RefusesFile, IsOnly};

use crate::entities::some_entities;
use crate::tokens::{after_doc, is_end};
use pc_expr::ParseFault;
use pc_expr::parsers::{ParseStop, fault, look};
use pc_token::Token;
use pc_tree::File;
use std::alloc::Global;

/// [doc] Entity {Entity} End, with the place after it.
#[tactic(auto, using(crate::proofs::Parts::file_by_parts), unfolding(crate::specs::Parts::file_parts, pc_grammar::specs::Reading::take_if))]
fn front(alloc: Global, tokens: &[Token]) -> Result<(File, usize), ParseStop>
    requires { StandsAtToken tokens.now 0 }
    ensures gives { GivesReading file_view tokens.now result (rules.file inner_levels tokens.now) }
    ensures within { IfOk result (λ r. r.1 ≤ length tokens.now) }
{
    let begin = after_doc(tokens, 0);
    let (entities, end) = some_entities(alloc, tokens, begin)?;
    if !is_end(look(tokens, end)) {
        return Err(ParseStop::Unexpected(end));
    }
    Ok((File { entities }, end + 1))
}

/// [doc] Entity {Entity} End, and nothing after it.
fn whole(alloc: Global, tokens: &[Token]) -> Result<File, ParseStop>
    requires { StandsAtToken tokens.now 0 }
    ensures read { IfOk result (λ f. IsFileAnswer tokens.now (spelled (file_view f))) }
    ensures refused { IfErr result (StopsRight tokens.now) }
{
    let (file, to) = front(alloc, tokens)?;
    if to < tokens.len() {
        return Err(ParseStop::Unexpected(to));
    }
    Ok(file)
}

/// The file that the tokens spell.
///
/// The grammar is that of `docs/grammar.md`. `Unexpected` names the first token with which no file begins any more, of
/// any depth; if the tokens spell a file and go on after its `End`, that is the first token after it. `TooDeep` names
/// the first token that opens level 201 of a body or a field's value.
pub fn file(alloc: Global, tokens: &[Token]) -> Result<File, ParseFault>
    requires ends { EndsWithEnd tokens.now }
    // The tree that the tokens spell, all of them, within 200 levels.
    ensures read { IfOk result (λ f. IsFileAnswer tokens.now (spelled (file_view f))) }
    // Why there is none, by the first byte of the faulty token; or memory ran out.
    ensures refused { IfErr result (RefusesFile tokens.now) }
    // Whatever answer holds for the tokens is the result, unless memory ran out.
    ensures exact { IsOnly tokens.now result }
{
    match whole(alloc, tokens) {
        Ok(file) => Ok(file),
        Err(stop) => Err(fault(tokens, stop)),
    }
}
