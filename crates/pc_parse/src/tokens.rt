//! Single tokens of files: docs, the end, and where a list of parts continues.
ghost use Rattle.std.specs.Prelude.{◌≡◌, ◌≤◌, drop, IfSome, Ok, option_map};
ghost use Rattle.pc_token.specs.declared.signs.Sign.TheVariants.{Ampersand};
ghost use Rattle.pc_token.specs.Words as spec;
ghost use Rattle.pc_grammar.specs.Reading as reading;
ghost use Rattle.pc_grammar.specs.ReadingFile as rules;
ghost use Rattle.pc_grammar.specs.Spells as spells;
ghost use Rattle.pc_expr.specs.Gives.{StandsAtToken};

use pc_expr::parsers::look;
use pc_token::{Sign, Token, TokenKind, Word, is_sign, is_word};
use pc_tree::{EntityKind, MethodWord};

#[tactic(auto, unfolding(pc_grammar::specs::ReadingFile::is_doc))]
fn is_doc(token: &Token) -> bool
    ensures { result ≡ rules.is_doc token.now }
{
    match &token.kind {
        TokenKind::Doc => true,
        TokenKind::Name(_)
        | TokenKind::TypeName(_)
        | TokenKind::Word(_)
        | TokenKind::Number(_)
        | TokenKind::Text(_)
        | TokenKind::Sign(_)
        | TokenKind::End => false,
    }
}

/// Whether a token is the end of the text.
#[tactic(auto, unfolding(pc_grammar::specs::ReadingFile::is_end))]
pub fn is_end(token: &Token) -> bool
    ensures { result ≡ rules.is_end token.now }
{
    match &token.kind {
        TokenKind::End => true,
        TokenKind::Name(_)
        | TokenKind::TypeName(_)
        | TokenKind::Word(_)
        | TokenKind::Number(_)
        | TokenKind::Text(_)
        | TokenKind::Doc
        | TokenKind::Sign(_) => false,
    }
}

/// The place after a doc, if there is one here.
#[tactic(auto, using(crate::proofs::Ends::is_doc_not_end), unfolding(pc_grammar::specs::ReadingFile::maybe_doc, pc_grammar::specs::Reading::peek, pc_grammar::specs::Reading::take_if))]
pub fn after_doc(tokens: &[Token], at: usize) -> usize
    requires { StandsAtToken tokens.now at }
    ensures gives { rules.maybe_doc (drop at tokens.now) ≡ Ok (tt, drop result tokens.now) }
    ensures moves { (at ≤ result) × StandsAtToken tokens.now result }
{
    if is_doc(look(tokens, at)) { at + 1 } else { at }
}

/// The place after the `&`, if there is one here.
#[tactic(auto, using(pc_expr::proofs::Ends::is_sign_not_end), unfolding(pc_grammar::specs::Reading::after))]
pub fn after_ampersand(tokens: &[Token], at: usize) -> Option<usize>
    requires { StandsAtToken tokens.now at }
    ensures value { option_map (λ p. drop p tokens.now) result ≡ reading.after (spec.is_sign Ampersand) (drop at tokens.now) }
    ensures there { IfSome result (λ p. (at ≤ p) × StandsAtToken tokens.now p) }
{
    if is_sign(look(tokens, at), Sign::Ampersand) {
        Some(at + 1)
    } else {
        None
    }
}

#[tactic(auto, unfolding(pc_grammar::specs::ReadingFile::begins_field))]
fn begins_field(token: &Token) -> bool
    ensures { result ≡ rules.begins_field token.now }
{
    is_word(token, Word::LetWord) || is_word(token, Word::VarWord)
}

/// This place, if a field begins here.
#[tactic(auto, unfolding(pc_grammar::specs::Reading::at))]
pub fn at_field(tokens: &[Token], at: usize) -> Option<usize>
    requires { StandsAtToken tokens.now at }
    ensures value { option_map (λ p. drop p tokens.now) result ≡ reading.at rules.begins_field (drop at tokens.now) }
    ensures there { IfSome result (λ p. (at ≤ p) × StandsAtToken tokens.now p) }
{
    if begins_field(look(tokens, at)) {
        Some(at)
    } else {
        None
    }
}

/// The keyword of such a method.
pub fn method_word(word: MethodWord) -> Word
    ensures { result ≡ spells.method_word word }
{
    match word {
        MethodWord::Fun => Word::FunWord,
        MethodWord::Be => Word::BeWord,
        MethodWord::New => Word::NewWord,
    }
}

/// Whether such a method begins with the token, and may be in such an entity.
pub fn begins(kind: EntityKind, word: MethodWord, token: &Token) -> bool
    ensures { result ≡ rules.word_in kind word token.now }
{
    kind.may_hold(word) && is_word(token, method_word(word))
}

#[tactic(auto, unfolding(pc_grammar::specs::ReadingFile::begins_method))]
fn begins_method(kind: EntityKind, token: &Token) -> bool
    ensures { result ≡ rules.begins_method kind token.now }
{
    begins(kind, MethodWord::Fun, token)
        || begins(kind, MethodWord::Be, token)
        || begins(kind, MethodWord::New, token)
}

/// This place, if a method begins here that may be in such an entity.
#[tactic(auto, unfolding(pc_grammar::specs::Reading::at))]
pub fn at_method(tokens: &[Token], at: usize, kind: EntityKind) -> Option<usize>
    requires { StandsAtToken tokens.now at }
    ensures value { option_map (λ p. drop p tokens.now) result ≡ reading.at (rules.begins_method kind) (drop at tokens.now) }
    ensures there { IfSome result (λ p. (at ≤ p) × StandsAtToken tokens.now p) }
{
    if begins_method(kind, look(tokens, at)) {
        Some(at)
    } else {
        None
    }
}

/// The keyword of such an entity.
pub fn entity_word(kind: EntityKind) -> Word
    ensures { result ≡ spells.entity_word kind }
{
    match kind {
        EntityKind::Class => Word::ClassWord,
        EntityKind::Actor => Word::ActorWord,
        EntityKind::Primitive => Word::PrimitiveWord,
        EntityKind::Trait => Word::TraitWord,
        EntityKind::Interface => Word::InterfaceWord,
    }
}

#[tactic(auto, unfolding(pc_grammar::specs::ReadingFile::begins_entity))]
fn begins_entity(token: &Token) -> bool
    ensures { result ≡ rules.begins_entity token.now }
{
    is_word(token, Word::ClassWord)
        || is_word(token, Word::ActorWord)
        || is_word(token, Word::PrimitiveWord)
        || is_word(token, Word::TraitWord)
        || is_word(token, Word::InterfaceWord)
}

/// This place, if an entity begins here.
#[tactic(auto, unfolding(pc_grammar::specs::Reading::at))]
pub fn at_entity(tokens: &[Token], at: usize) -> Option<usize>
    requires { StandsAtToken tokens.now at }
    ensures value { option_map (λ p. drop p tokens.now) result ≡ reading.at rules.begins_entity (drop at tokens.now) }
    ensures there { IfSome result (λ p. (at ≤ p) × StandsAtToken tokens.now p) }
{
    if begins_entity(look(tokens, at)) {
        Some(at)
    } else {
        None
    }
}
