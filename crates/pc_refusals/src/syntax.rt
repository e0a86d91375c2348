//! The tokens and the tree of a source.
ghost use Rattle.std.specs.Prelude.{◌≤◌, length};
ghost use Rattle.pc_expr.specs.Gives.{EndsWithEnd};
ghost use Rattle.pc_lex.specs.Pieces.{bytes_limit};
ghost use Rattle.pc_tree.specs.View.{file_view};
ghost use Rattle.pc_refusals.specs.Inner.Stages.{StageEnds, StageEndsAs};
ghost use Rattle.pc_refusals.specs.Source.{Lexing, Parsing, SyntaxStage};

use crate::lex_faults::refuse_lexing;
use crate::refusal::refuse_at;
use crate::stop::Stop;
use pc_base::List;
use pc_lex::lex;
use pc_parse::{ParseFault, file};
use pc_text_order::tokens_are_in_order;
use pc_token::Token;
use pc_tree::File;
use std::alloc::Global;

/// The tokens of the source with this name and these bytes.
pub fn read_tokens(alloc: Global, name: &str, bytes: &[u8]) -> Result<List<Token>, Stop>
    requires { length bytes.now ≤ bytes_limit }
    ensures { StageEnds (Lexing name.now bytes.now) result }
{
    match lex(alloc, bytes) {
        Ok(tokens) => Ok(tokens),
        Err(fault) => Err(refuse_lexing(alloc, name, bytes, fault)),
    }
}

/// The tree of the source with this name, these bytes and these tokens.
pub fn read_tree(alloc: Global, name: &str, bytes: &[u8], tokens: &[Token]) -> Result<File, Stop>
    requires { EndsWithEnd tokens.now }
    ensures { StageEndsAs file_view (Parsing name.now bytes.now tokens.now) result }
{
    match file(alloc, tokens) {
        Ok(tree) => Ok(tree),
        Err(ParseFault::Unexpected(at)) => {
            Err(refuse_at(alloc, name, bytes, 3, at, "unexpected"))
        }
        Err(ParseFault::TooDeep(at)) => {
            Err(refuse_at(alloc, name, bytes, 8, at, "nested too deep"))
        }
        Err(ParseFault::Memory) => Err(Stop::Memory),
    }
}

/// The tree of the source with this name and these bytes.
pub fn parse_source(alloc: Global, name: &str, bytes: &[u8]) -> Result<File, Stop>
    requires { length bytes.now ≤ bytes_limit }
    ensures { StageEndsAs file_view (SyntaxStage name.now bytes.now) result }
{
    let tokens = read_tokens(alloc, name, bytes)?;
    tokens_are_in_order();
    read_tree(alloc, name, bytes, tokens.as_slice())
}
