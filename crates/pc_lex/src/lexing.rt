//! The lexer's loop over a text, piece by piece.
ghost use Rattle.std.specs.Prelude.{◌≡◌, ◌<◌, ◌≤◌, ◌||◌, ◌==◌, [], ◌∷◌, ◌++◌, List as Sequence, length, Ok, Err, IfOk, IfErr, OnOk, OnErr};
ghost use Rattle.pc_token.specs.declared.kinds.Token.{Token};
ghost use Rattle.pc_lex.specs.declared.fault.LexFault.{LexFault};
ghost use Rattle.pc_lex.specs.Pieces.{bytes_limit, TokenList};
ghost use Rattle.pc_lex.specs.Parts as parts;
ghost use Rattle.pc_lex.specs.Faults.{FirstLexFault};
ghost use Rattle.pc_lex.specs.Refusals.{RefusesTokens, AnswersTokens};
ghost use Rattle.pc_lex.specs.Reading as reading;
ghost use Rattle.pc_lex.specs.Reading.{Passes, Steps, StopWithin, Stuck};

use crate::classes::is_blank;
use crate::fault::LexFault;
use crate::pieces::{Found, LexStop, piece_at};
use pc_base::{List, Span};
use pc_token::{Token, TokenKind};
use std::alloc::{AllocError, Global};

/// How many tokens a text may have, not counting its end.
const TOKEN_LIMIT: usize = 200_000;

/// Whether there is an LF among these bytes.
fn has_line_end(text: &[u8]) -> bool
    ensures { result ≡ parts.has_line_end text.now }
{
    text.contains(&b'\n')
}

/// The fault of a text at a place where no piece begins.
fn fault_at(stop: LexStop, place: u32) -> LexFault
    requires { StopWithin bytes_limit stop × (place ≤ bytes_limit) }
    ensures { result ≡ reading.fault_at stop place }
{
    match stop {
        LexStop::BadByte => LexFault::BadByte(place),
        LexStop::BadNumber => LexFault::BadNumber(place),
        LexStop::Unclosed => LexFault::Unclosed(place),
        LexStop::BadEscape(offset) => LexFault::BadEscape(place + offset as u32),
        LexStop::Memory => LexFault::Memory,
    }
}

/// Puts a token at the end of the others. The room is asked for first, so that the token need not come back.
fn put_token(tokens: &mut Vec<Token>, token: Token) -> Result<(), AllocError>
    ensures ok { OnOk result (tokens.new.items ≡ tokens.old.items ++ token ∷ []) }
    ensures err { OnErr result (tokens.new.items ≡ tokens.old.items) }
{
    tokens.reserve(1)?;
    tokens.push_reserved(token);
    Ok(())
}

/// Reads one piece, and appends it to the tokens if it is one. Returns its end, and whether a token there would be
/// first on its line.
fn step(
    alloc: Global,
    text: &[u8],
    at: usize,
    first: bool,
    tokens: &mut Vec<Token>,
) -> Result<(usize, bool), LexFault>
    requires within { at < length text.now }
    requires short { length text.now ≤ bytes_limit }
    ensures ok { IfOk result (λ r. Steps text.now at first tokens.old.items tokens.new.items r) }
    ensures err { IfErr result (λ f. Stuck text.now at tokens.old.items f) }
    ensures moves { IfOk result (λ r. r.0 ≤ length text.now) }
{
    let (found, n) = match piece_at(alloc, &text[at..]) {
        Ok(piece) => piece,
        Err(stop) => return Err(fault_at(stop, at as u32)),
    };
    match found {
        Found::Gap => Ok((at + n, first || has_line_end(&text[at..at + n]))),
        Found::Token(kind) => {
            if tokens.len() >= TOKEN_LIMIT {
                return Err(LexFault::TooMany(at as u32));
            }
            let span = Span {
                start: at as u32,
                end: (at + n) as u32,
            };
            put_token(tokens, Token { kind, first, span })?;
            Ok((at + n, false))
        }
    }
}

/// Whether a token after a byte would be first on its line.
fn is_first_behind(first: bool, byte: u8) -> bool
    ensures { result ≡ (first || byte == 10) }
{
    first || byte == b'\n'
}

/// Where the blanks at a place end, and whether a token there would be first on its line.
fn pass_blanks(text: &[u8], start: usize, begins: bool) -> (usize, bool)
    requires { start ≤ length text.now }
    ensures passes { Passes text.now start begins result.0 result.1 }
    ensures within { (start ≤ result.0) × (result.0 ≤ length text.now) }
{
    let mut at = start;
    let mut first = begins;
    'blanks: while at < text.len() && is_blank(text[at]) {
        first = is_first_behind(first, text[at]);
        at += 1;
    }
    (at, first)
}

/// Reads a text piece by piece, to its end.
fn read_all(alloc: Global, text: &[u8]) -> Result<List<Token>, LexFault>
    requires { length text.now ≤ bytes_limit }
    ensures ok { IfOk result (TokenList text.now) }
    ensures err { IfErr result (RefusesTokens text.now) }
{
    let mut tokens: Vec<Token> = Vec::new(alloc);
    let mut at: usize = 0;
    let mut first = true;
    'pieces: while at < text.len() {
        let (end, begins) = step(alloc, text, at, first, &mut tokens)?;
        (at, first) = pass_blanks(text, end, begins);
    }
    let place = at as u32;
    let end = Token {
        kind: TokenKind::End,
        first,
        span: Span {
            start: place,
            end: place,
        },
    };
    put_token(&mut tokens, end)?;
    Ok(List::from_vec(tokens))
}

/// The tokens of a text of at most 1,048,576 bytes: at most 200,000, and `End` last. Blanks and comments separate
/// tokens, and at each place the longest token is taken.
///
/// The first fault of a text is that of the first place at which no blank, comment or token begins, or `TooMany` if
/// token number 200,001 begins before that place.
pub fn lex(alloc: Global, text: &[u8]) -> Result<List<Token>, LexFault>
    requires { length text.now ≤ bytes_limit }
    // The list is that of the text.
    ensures ok { IfOk result (TokenList text.now) }
    // The fault is the first of the text, or memory ran out.
    ensures err { IfErr result (RefusesTokens text.now) }
    // If the text has a list within the limit, it is returned, unless memory ran out.
    ensures listed { (tokens : Sequence Token) → TokenList text.now tokens → AnswersTokens result (Ok tokens) }
    // If the text has a first fault, it is returned, unless memory ran out.
    ensures faulty { (fault : LexFault) → FirstLexFault text.now fault → AnswersTokens result (Err fault) }
{
    read_all(alloc, text)
}
