//! Tests on a token by which the parsers decide.
ghost use Rattle.std.specs.Prelude.{◌≡◌};
ghost use Rattle.pc_grammar.specs.Spells as spec;
ghost use Rattle.pc_grammar.specs.Reading as reading;

use pc_caps::Cap;
use pc_token::{Sign, Token, TokenKind, Word};
use pc_tree::Op;

/// The infix operator that a token is. A `-` that is first on its line is no operator (the Pony tutorial).
#[tactic(auto, unfolding(crate::specs::Spells::op_of))]
pub fn op_of(token: &Token) -> Option<Op>
    ensures { result ≡ spec.op_of token.now }
{
    match &token.kind {
        TokenKind::Sign(Sign::Plus) => Some(Op::Add),
        TokenKind::Sign(Sign::Minus) => { if token.first { None } else { Some(Op::Sub) } }
        TokenKind::Sign(Sign::Star) => Some(Op::Mul),
        TokenKind::Sign(Sign::Slash) => Some(Op::Div),
        TokenKind::Sign(Sign::Percent) => Some(Op::Rem),
        TokenKind::Sign(Sign::Equal) => Some(Op::Eq),
        TokenKind::Sign(Sign::NotEqual) => Some(Op::Ne),
        TokenKind::Sign(Sign::Less) => Some(Op::Lt),
        TokenKind::Sign(Sign::LessEqual) => Some(Op::Le),
        TokenKind::Sign(Sign::Greater) => Some(Op::Gt),
        TokenKind::Sign(Sign::GreaterEqual) => Some(Op::Ge),
        TokenKind::Word(Word::AndWord) => Some(Op::And),
        TokenKind::Word(Word::OrWord) => Some(Op::Or),
        TokenKind::Word(Word::XorWord) => Some(Op::Xor),
        TokenKind::Word(Word::IsWord) => Some(Op::Is),
        TokenKind::Word(Word::IsntWord) => Some(Op::Isnt),
        TokenKind::Name(_)
        | TokenKind::TypeName(_)
        | TokenKind::Word(_)
        | TokenKind::Number(_)
        | TokenKind::Text(_)
        | TokenKind::Doc
        | TokenKind::Sign(_)
        | TokenKind::End => None,
    }
}

/// The capability named by a token.
#[tactic(auto, unfolding(crate::specs::Spells::cap_of))]
pub fn cap_of(token: &Token) -> Option<Cap>
    ensures { result ≡ spec.cap_of token.now }
{
    match &token.kind {
        TokenKind::Word(Word::IsoWord) => Some(Cap::Iso),
        TokenKind::Word(Word::TrnWord) => Some(Cap::Trn),
        TokenKind::Word(Word::RefWord) => Some(Cap::Ref),
        TokenKind::Word(Word::ValWord) => Some(Cap::Val),
        TokenKind::Word(Word::BoxWord) => Some(Cap::Box),
        TokenKind::Word(Word::TagWord) => Some(Cap::Tag),
        TokenKind::Name(_)
        | TokenKind::TypeName(_)
        | TokenKind::Word(_)
        | TokenKind::Number(_)
        | TokenKind::Text(_)
        | TokenKind::Doc
        | TokenKind::Sign(_)
        | TokenKind::End => None,
    }
}

/// Whether an item of a sequence may begin with a token.
#[tactic(auto, unfolding(crate::specs::Reading::begins_item))]
pub fn begins_item(token: &Token) -> bool
    ensures { result ≡ reading.begins_item token.now }
{
    match &token.kind {
        TokenKind::Name(_)
        | TokenKind::TypeName(_)
        | TokenKind::Number(_)
        | TokenKind::Text(_)
        | TokenKind::Sign(Sign::OpenParen)
        | TokenKind::Word(Word::ThisWord)
        | TokenKind::Word(Word::TrueWord)
        | TokenKind::Word(Word::FalseWord)
        | TokenKind::Word(Word::IfWord)
        | TokenKind::Word(Word::WhileWord)
        | TokenKind::Word(Word::RecoverWord)
        | TokenKind::Word(Word::NotWord)
        | TokenKind::Word(Word::ConsumeWord)
        | TokenKind::Word(Word::LetWord)
        | TokenKind::Word(Word::VarWord) => true,
        TokenKind::Word(_) | TokenKind::Doc | TokenKind::Sign(_) | TokenKind::End => false,
    }
}
