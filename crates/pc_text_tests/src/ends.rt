//! Texts with two ends.
ghost use Rattle.std.specs.Prelude.{IfOk};
ghost use Rattle.pc_expr.specs.Gives.{EndsWithEnd};

use pc_base::{List, Span};
use pc_lex::{Token, TokenKind};
use pc_parse::{ParseFault, file};
use pc_test_inputs::{Wrong, tokens_of};
use std::alloc::Global;

/// The tokens of a text, and one more end, which begins at a byte.
#[tactic(auto, using(crate::proofs::LastToken::ends_with_last))]
fn with_end(alloc: Global, text: &[u8], start: u32) -> Result<List<Token>, Wrong>
    ensures { IfOk result EndsWithEnd }
{
    let mut tokens = tokens_of(alloc, text)?;
    tokens.push(Token {
        kind: TokenKind::End,
        first: false,
        span: Span { start, end: start },
    })?;
    Ok(tokens)
}

// What is wrong with a text with two ends, the second of which begins at a byte.
fn file_with_end(alloc: Global, text: &[u8], start: u32) -> Result<(), Wrong> {
    let tokens = with_end(alloc, text, start)?;
    drop(file(alloc, tokens.as_slice())?);
    Ok(())
}

// A text that is a file, and a token after its end; and one that stops before its end.
#[test]
fn after_the_end(rt: HostRuntime) {
    let after = Err(Wrong::NoTree(ParseFault::Unexpected(9)));
    assert_eq!(rt; file_with_end(rt.alloc(), b"class C", 9), after);
    let before = Err(Wrong::NoTree(ParseFault::Unexpected(5)));
    assert_eq!(rt; file_with_end(rt.alloc(), b"class", 9), before);
}
