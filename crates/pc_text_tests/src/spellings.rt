//! Each word and each sign, spelled, and the values of numbers and texts.
use crate::tokens::answer;
use pc_lex::{Sign, Token, TokenKind, Word};
use std::alloc::Global;

/// What a token carries.
#[derive(Clone, Copy)]
enum Begins {
    Word(Word),
    Sign(Sign),
    Number(u64),
    Text(&'static [u8]),
}

fn carries(kind: &TokenKind, wanted: Begins) -> bool {
    match wanted {
        Begins::Word(word) => {
            let TokenKind::Word(found) = kind else {
                return false;
            };
            *found == word
        }
        Begins::Sign(sign) => {
            let TokenKind::Sign(found) = kind else {
                return false;
            };
            *found == sign
        }
        Begins::Number(value) => {
            let TokenKind::Number(found) = kind else {
                return false;
            };
            *found == value
        }
        Begins::Text(value) => {
            let TokenKind::Text(found) = kind else {
                return false;
            };
            found.as_slice() == value
        }
    }
}

// Whether the first of these tokens carries this, and they are as many with the end.
fn begin_so(tokens: &[Token], wanted: Begins, count: usize) -> bool {
    match (tokens.get(0), tokens.last()) {
        (Some(token), Some(end)) => {
            let TokenKind::End = &end.kind else {
                return false;
            };
            tokens.len() == count && carries(&token.kind, wanted)
        }
        _ => false,
    }
}

/// A text, what its first token carries, and how many tokens it has with its end.
type Spelled = (&'static [u8], Begins, usize);

fn is_spelled(alloc: Global, spelled: Spelled) -> bool {
    let (text, wanted, count) = spelled;
    match answer(alloc, text) {
        Ok(tokens) => begin_so(tokens.as_slice(), wanted, count),
        Err(_) => false,
    }
}

const WORDS: [Spelled; 59] = [
    (b"actor", Begins::Word(Word::ActorWord), 2),
    (b"class", Begins::Word(Word::ClassWord), 2),
    (b"primitive", Begins::Word(Word::PrimitiveWord), 2),
    (b"trait", Begins::Word(Word::TraitWord), 2),
    (b"fun", Begins::Word(Word::FunWord), 2),
    (b"be", Begins::Word(Word::BeWord), 2),
    (b"new", Begins::Word(Word::NewWord), 2),
    (b"var", Begins::Word(Word::VarWord), 2),
    (b"let", Begins::Word(Word::LetWord), 2),
    (b"is", Begins::Word(Word::IsWord), 2),
    (b"isnt", Begins::Word(Word::IsntWord), 2),
    (b"iso", Begins::Word(Word::IsoWord), 2),
    (b"trn", Begins::Word(Word::TrnWord), 2),
    (b"ref", Begins::Word(Word::RefWord), 2),
    (b"val", Begins::Word(Word::ValWord), 2),
    (b"box", Begins::Word(Word::BoxWord), 2),
    (b"tag", Begins::Word(Word::TagWord), 2),
    (b"if", Begins::Word(Word::IfWord), 2),
    (b"then", Begins::Word(Word::ThenWord), 2),
    (b"elseif", Begins::Word(Word::ElseifWord), 2),
    (b"else", Begins::Word(Word::ElseWord), 2),
    (b"end", Begins::Word(Word::EndWord), 2),
    (b"while", Begins::Word(Word::WhileWord), 2),
    (b"do", Begins::Word(Word::DoWord), 2),
    (b"recover", Begins::Word(Word::RecoverWord), 2),
    (b"consume", Begins::Word(Word::ConsumeWord), 2),
    (b"this", Begins::Word(Word::ThisWord), 2),
    (b"true", Begins::Word(Word::TrueWord), 2),
    (b"false", Begins::Word(Word::FalseWord), 2),
    (b"and", Begins::Word(Word::AndWord), 2),
    (b"or", Begins::Word(Word::OrWord), 2),
    (b"xor", Begins::Word(Word::XorWord), 2),
    (b"not", Begins::Word(Word::NotWord), 2),
    (b"interface", Begins::Word(Word::InterfaceWord), 2),
    (b"struct", Begins::Word(Word::StructWord), 2),
    (b"type", Begins::Word(Word::TypeWord), 2),
    (b"use", Begins::Word(Word::UseWord), 2),
    (b"embed", Begins::Word(Word::EmbedWord), 2),
    (b"return", Begins::Word(Word::ReturnWord), 2),
    (b"break", Begins::Word(Word::BreakWord), 2),
    (b"continue", Begins::Word(Word::ContinueWord), 2),
    (b"error", Begins::Word(Word::ErrorWord), 2),
    (b"try", Begins::Word(Word::TryWord), 2),
    (b"with", Begins::Word(Word::WithWord), 2),
    (b"match", Begins::Word(Word::MatchWord), 2),
    (b"for", Begins::Word(Word::ForWord), 2),
    (b"in", Begins::Word(Word::InWord), 2),
    (b"repeat", Begins::Word(Word::RepeatWord), 2),
    (b"until", Begins::Word(Word::UntilWord), 2),
    (b"where", Begins::Word(Word::WhereWord), 2),
    (b"as", Begins::Word(Word::AsWord), 2),
    (b"object", Begins::Word(Word::ObjectWord), 2),
    (b"lambda", Begins::Word(Word::LambdaWord), 2),
    (b"ifdef", Begins::Word(Word::IfdefWord), 2),
    (b"iftype", Begins::Word(Word::IftypeWord), 2),
    (b"compile_error", Begins::Word(Word::CompileErrorWord), 2),
    (
        b"compile_intrinsic",
        Begins::Word(Word::CompileIntrinsicWord),
        2,
    ),
    (b"addressof", Begins::Word(Word::AddressofWord), 2),
    (b"digestof", Begins::Word(Word::DigestofWord), 2),
];

const SIGNS: [Spelled; 21] = [
    (b"(", Begins::Sign(Sign::OpenParen), 2),
    (b")", Begins::Sign(Sign::CloseParen), 2),
    (b",", Begins::Sign(Sign::Comma), 2),
    (b".", Begins::Sign(Sign::Dot), 2),
    (b":", Begins::Sign(Sign::Colon), 2),
    (b";", Begins::Sign(Sign::Semicolon), 2),
    (b"=", Begins::Sign(Sign::Assign), 2),
    (b"=>", Begins::Sign(Sign::Arrow), 2),
    (b"^", Begins::Sign(Sign::Caret), 2),
    (b"&", Begins::Sign(Sign::Ampersand), 2),
    (b"+", Begins::Sign(Sign::Plus), 2),
    (b"-", Begins::Sign(Sign::Minus), 2),
    (b"*", Begins::Sign(Sign::Star), 2),
    (b"/", Begins::Sign(Sign::Slash), 2),
    (b"%", Begins::Sign(Sign::Percent), 2),
    (b"==", Begins::Sign(Sign::Equal), 2),
    (b"!=", Begins::Sign(Sign::NotEqual), 2),
    (b"<", Begins::Sign(Sign::Less), 2),
    (b"<=", Begins::Sign(Sign::LessEqual), 2),
    (b">", Begins::Sign(Sign::Greater), 2),
    (b">=", Begins::Sign(Sign::GreaterEqual), 2),
];

const NUMBERS: [Spelled; 8] = [
    (b"0", Begins::Number(0), 2),
    (b"007", Begins::Number(7), 2),
    (b"1_000", Begins::Number(1000), 2),
    (b"0xfF_0", Begins::Number(4080), 2),
    (b"0b1_0", Begins::Number(2), 2),
    (
        b"18446744073709551615",
        Begins::Number(18446744073709551615),
        2,
    ),
    (
        b"0xFFFF_ffff_FFFF_ffff",
        Begins::Number(18446744073709551615),
        2,
    ),
    (b"9/1", Begins::Number(9), 4),
];

const TEXTS: [Spelled; 5] = [
    (b"\"\"", Begins::Text(b""), 2),
    (b"\"abc\" \"d\"", Begins::Text(b"abc"), 3),
    (
        b"\"\\n\\r\\t\\\\\\\"\\0\\x4a\\xFf\"",
        Begins::Text(b"\n\r\t\\\"\0\x4a\xff"),
        2,
    ),
    (b"\"a\n\xc3\xa9'//\"", Begins::Text(b"a\n\xc3\xa9'//"), 2),
    (b"\"\\\\\"", Begins::Text(b"\\"), 2),
];

// The place of the first of these texts that begins with something else.
fn wrong_spelled(alloc: Global, spelled: &[Spelled]) -> Option<usize> {
    for at in 0..spelled.len() {
        if !is_spelled(alloc, spelled[at]) {
            return Some(at);
        }
    }
    None
}

#[test]
fn every_word_and_sign_and_the_values_of_numbers_and_texts(rt: HostRuntime) {
    assert_eq!(rt; wrong_spelled(rt.alloc(), &WORDS), None);
    assert_eq!(rt; wrong_spelled(rt.alloc(), &SIGNS), None);
    assert_eq!(rt; wrong_spelled(rt.alloc(), &NUMBERS), None);
    assert_eq!(rt; wrong_spelled(rt.alloc(), &TEXTS), None);
}
