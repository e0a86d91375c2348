//! Single tokens: looking at them, taking them, and where a list continues.
ghost use Rattle.std.specs.Prelude.{◌≡◌, ◌≢◌, ◌+◌, ◌∷◌, ◌≤◌, drop, IfOk, IfSome, option_map};
ghost use Rattle.pc_token.specs.declared.kinds.TokenKind.TheVariants.{End};
ghost use Rattle.pc_token.specs.declared.signs.Sign.TheVariants.{Comma};
ghost use Rattle.pc_token.specs.declared.words.Word.TheVariants.{ElseifWord};
ghost use Rattle.pc_token.specs.Words as spec;
ghost use Rattle.pc_grammar.specs.Parts as parts;
ghost use Rattle.pc_grammar.specs.Reading as reading;
ghost use Rattle.pc_expr.specs.Gives.{StandsAtToken, Moves, GivesReading};

use crate::stop::ParseStop;
use pc_grammar::{begins_item, op_of};
use pc_token::{Sign, Token, Word, is_sign, is_word};
use pc_tree::Op;

/// The token at a place.
pub fn look(tokens: &[Token], at: usize) -> &Token
    requires { StandsAtToken tokens.now at }
    ensures here { drop at tokens.now ≡ result.now ∷ drop (at + 1) tokens.now }
    ensures more { result.now.kind ≢ End → StandsAtToken tokens.now (at + 1) }
{
    &tokens[at]
}

/// The sign and the place after it, if it is there.
#[tactic(auto, using(crate::proofs::Ends::is_sign_not_end), unfolding(pc_grammar::specs::Reading::take_if))]
pub fn take_sign(tokens: &[Token], at: usize, sign: Sign) -> Result<(&Token, usize), ParseStop>
    requires { StandsAtToken tokens.now at }
    ensures gives { GivesReading (λ t. t.now) tokens.now result (reading.take_if (spec.is_sign sign) (drop at tokens.now)) }
    ensures moves { IfOk result (λ r. Moves tokens.now at r.1) }
{
    let token = look(tokens, at);
    if is_sign(token, sign) {
        Ok((token, at + 1))
    } else {
        Err(ParseStop::Unexpected(at))
    }
}

/// The word and the place after it, if it is there.
#[tactic(auto, using(crate::proofs::Ends::is_word_not_end), unfolding(pc_grammar::specs::Reading::take_if))]
pub fn take_word(tokens: &[Token], at: usize, word: Word) -> Result<(&Token, usize), ParseStop>
    requires { StandsAtToken tokens.now at }
    ensures gives { GivesReading (λ t. t.now) tokens.now result (reading.take_if (spec.is_word word) (drop at tokens.now)) }
    ensures moves { IfOk result (λ r. Moves tokens.now at r.1) }
{
    let token = look(tokens, at);
    if is_word(token, word) {
        Ok((token, at + 1))
    } else {
        Err(ParseStop::Unexpected(at))
    }
}

/// Where the next item begins, if one follows.
#[tactic(auto, using(crate::proofs::Ends::is_sign_not_end), unfolding(pc_grammar::specs::Reading::next_item))]
pub fn next_item(tokens: &[Token], at: usize) -> Option<usize>
    requires { StandsAtToken tokens.now at }
    ensures value { option_map (λ p. drop p tokens.now) result ≡ reading.next_item (drop at tokens.now) }
    ensures there { IfSome result (λ p. (at ≤ p) × StandsAtToken tokens.now p) }
{
    let token = look(tokens, at);
    if is_sign(token, Sign::Semicolon) {
        Some(at + 1)
    } else if token.first && begins_item(token) {
        Some(at)
    } else {
        None
    }
}

/// The place after the comma, if there is one.
#[tactic(auto, using(crate::proofs::Ends::is_sign_not_end), unfolding(pc_grammar::specs::Reading::after))]
pub fn after_comma(tokens: &[Token], at: usize) -> Option<usize>
    requires { StandsAtToken tokens.now at }
    ensures value { option_map (λ p. drop p tokens.now) result ≡ reading.after (spec.is_sign Comma) (drop at tokens.now) }
    ensures there { IfSome result (λ p. (at ≤ p) × StandsAtToken tokens.now p) }
{
    if is_sign(look(tokens, at), Sign::Comma) {
        Some(at + 1)
    } else {
        None
    }
}

#[tactic(auto, unfolding(pc_grammar::specs::Parts::same_op))]
fn same_op(one: Op, other: Op) -> bool
    ensures { result ≡ parts.same_op one other }
{
    one == other
}

#[tactic(auto, unfolding(pc_grammar::specs::Reading::is_op))]
fn is_op(token: &Token, op: Op) -> bool
    ensures { result ≡ reading.is_op op token.now }
{
    match op_of(token) {
        Some(found) => same_op(found, op),
        None => false,
    }
}

/// The place after the operator, if it is there.
#[tactic(auto, using(crate::proofs::Ends::is_op_not_end), unfolding(pc_grammar::specs::Reading::after))]
pub fn after_op(tokens: &[Token], at: usize, op: Op) -> Option<usize>
    requires { StandsAtToken tokens.now at }
    ensures value { option_map (λ p. drop p tokens.now) result ≡ reading.after (reading.is_op op) (drop at tokens.now) }
    ensures there { IfSome result (λ p. (at ≤ p) × StandsAtToken tokens.now p) }
{
    if is_op(look(tokens, at), op) {
        Some(at + 1)
    } else {
        None
    }
}

#[tactic(auto, unfolding(pc_grammar::specs::Reading::begins_suffix))]
fn begins_suffix(token: &Token) -> bool
    ensures { result ≡ reading.begins_suffix token.now }
{
    is_sign(token, Sign::Dot) || (is_sign(token, Sign::OpenParen) && !token.first)
}

/// This place, if a suffix begins here.
#[tactic(auto, unfolding(pc_grammar::specs::Reading::at))]
pub fn at_suffix(tokens: &[Token], at: usize) -> Option<usize>
    requires { StandsAtToken tokens.now at }
    ensures value { option_map (λ p. drop p tokens.now) result ≡ reading.at reading.begins_suffix (drop at tokens.now) }
    ensures there { IfSome result (λ p. (at ≤ p) × StandsAtToken tokens.now p) }
{
    if begins_suffix(look(tokens, at)) {
        Some(at)
    } else {
        None
    }
}

/// This place, if there is an `elseif` here.
#[tactic(auto, unfolding(pc_grammar::specs::Reading::at))]
pub fn at_elseif(tokens: &[Token], at: usize) -> Option<usize>
    requires { StandsAtToken tokens.now at }
    ensures value { option_map (λ p. drop p tokens.now) result ≡ reading.at (spec.is_word ElseifWord) (drop at tokens.now) }
    ensures there { IfSome result (λ p. (at ≤ p) × StandsAtToken tokens.now p) }
{
    if is_word(look(tokens, at), Word::ElseifWord) {
        Some(at)
    } else {
        None
    }
}
