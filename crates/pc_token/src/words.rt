//! The reserved words and their spellings.
ghost use Rattle.std.specs.Prelude.{◌≡◌};
ghost use Rattle.pc_token.specs.Words as spec;
ghost use Rattle.pc_token.specs.Finding as finding;

/// A reserved word, named by its spelling. No name is spelled like one.
///
/// The words from `StructWord` on are reserved, but no rule of the grammar uses them so far.
#[derive(Clone, Copy, Debug, PartialEq, Eq)]
pub enum Word {
    ActorWord,
    ClassWord,
    PrimitiveWord,
    TraitWord,
    FunWord,
    BeWord,
    NewWord,
    VarWord,
    LetWord,
    IsWord,
    IsntWord,
    IsoWord,
    TrnWord,
    RefWord,
    ValWord,
    BoxWord,
    TagWord,
    IfWord,
    ThenWord,
    ElseifWord,
    ElseWord,
    EndWord,
    WhileWord,
    DoWord,
    RecoverWord,
    ConsumeWord,
    ThisWord,
    TrueWord,
    FalseWord,
    AndWord,
    OrWord,
    XorWord,
    NotWord,
    InterfaceWord,
    StructWord,
    TypeWord,
    UseWord,
    EmbedWord,
    ReturnWord,
    BreakWord,
    ContinueWord,
    ErrorWord,
    TryWord,
    WithWord,
    MatchWord,
    ForWord,
    InWord,
    RepeatWord,
    UntilWord,
    WhereWord,
    AsWord,
    ObjectWord,
    LambdaWord,
    IfdefWord,
    IftypeWord,
    CompileErrorWord,
    CompileIntrinsicWord,
    AddressofWord,
    DigestofWord,
}

/// All reserved words, each once.
pub const WORDS: [Word; 59] = [
    Word::ActorWord,
    Word::ClassWord,
    Word::PrimitiveWord,
    Word::TraitWord,
    Word::FunWord,
    Word::BeWord,
    Word::NewWord,
    Word::VarWord,
    Word::LetWord,
    Word::IsWord,
    Word::IsntWord,
    Word::IsoWord,
    Word::TrnWord,
    Word::RefWord,
    Word::ValWord,
    Word::BoxWord,
    Word::TagWord,
    Word::IfWord,
    Word::ThenWord,
    Word::ElseifWord,
    Word::ElseWord,
    Word::EndWord,
    Word::WhileWord,
    Word::DoWord,
    Word::RecoverWord,
    Word::ConsumeWord,
    Word::ThisWord,
    Word::TrueWord,
    Word::FalseWord,
    Word::AndWord,
    Word::OrWord,
    Word::XorWord,
    Word::NotWord,
    Word::InterfaceWord,
    Word::StructWord,
    Word::TypeWord,
    Word::UseWord,
    Word::EmbedWord,
    Word::ReturnWord,
    Word::BreakWord,
    Word::ContinueWord,
    Word::ErrorWord,
    Word::TryWord,
    Word::WithWord,
    Word::MatchWord,
    Word::ForWord,
    Word::InWord,
    Word::RepeatWord,
    Word::UntilWord,
    Word::WhereWord,
    Word::AsWord,
    Word::ObjectWord,
    Word::LambdaWord,
    Word::IfdefWord,
    Word::IftypeWord,
    Word::CompileErrorWord,
    Word::CompileIntrinsicWord,
    Word::AddressofWord,
    Word::DigestofWord,
];

// The words that begin with each letter, in the order of `WORDS`.
const A_WORDS: [Word; 4] = [
    Word::ActorWord,
    Word::AndWord,
    Word::AsWord,
    Word::AddressofWord,
];

const B_WORDS: [Word; 3] = [Word::BeWord, Word::BoxWord, Word::BreakWord];

const C_WORDS: [Word; 5] = [
    Word::ClassWord,
    Word::ConsumeWord,
    Word::ContinueWord,
    Word::CompileErrorWord,
    Word::CompileIntrinsicWord,
];

const D_WORDS: [Word; 2] = [Word::DoWord, Word::DigestofWord];

const E_WORDS: [Word; 5] = [
    Word::ElseifWord,
    Word::ElseWord,
    Word::EndWord,
    Word::EmbedWord,
    Word::ErrorWord,
];

const F_WORDS: [Word; 3] = [Word::FunWord, Word::FalseWord, Word::ForWord];

const I_WORDS: [Word; 8] = [
    Word::IsWord,
    Word::IsntWord,
    Word::IsoWord,
    Word::IfWord,
    Word::InterfaceWord,
    Word::InWord,
    Word::IfdefWord,
    Word::IftypeWord,
];

const L_WORDS: [Word; 2] = [Word::LetWord, Word::LambdaWord];

const M_WORDS: [Word; 1] = [Word::MatchWord];

const N_WORDS: [Word; 2] = [Word::NewWord, Word::NotWord];

const O_WORDS: [Word; 2] = [Word::OrWord, Word::ObjectWord];

const P_WORDS: [Word; 1] = [Word::PrimitiveWord];

const R_WORDS: [Word; 4] = [
    Word::RefWord,
    Word::RecoverWord,
    Word::ReturnWord,
    Word::RepeatWord,
];

const S_WORDS: [Word; 1] = [Word::StructWord];

const T_WORDS: [Word; 8] = [
    Word::TraitWord,
    Word::TrnWord,
    Word::TagWord,
    Word::ThenWord,
    Word::ThisWord,
    Word::TrueWord,
    Word::TypeWord,
    Word::TryWord,
];

const U_WORDS: [Word; 2] = [Word::UseWord, Word::UntilWord];

const V_WORDS: [Word; 2] = [Word::VarWord, Word::ValWord];

const W_WORDS: [Word; 3] = [Word::WhileWord, Word::WithWord, Word::WhereWord];

const X_WORDS: [Word; 1] = [Word::XorWord];

/// The spelling of a word.
pub fn word_text(word: Word) -> &'static [u8]
    ensures { result.now ≡ spec.word_text word }
{
    match word {
        Word::ActorWord => b"actor",
        Word::ClassWord => b"class",
        Word::PrimitiveWord => b"primitive",
        Word::TraitWord => b"trait",
        Word::FunWord => b"fun",
        Word::BeWord => b"be",
        Word::NewWord => b"new",
        Word::VarWord => b"var",
        Word::LetWord => b"let",
        Word::IsWord => b"is",
        Word::IsntWord => b"isnt",
        Word::IsoWord => b"iso",
        Word::TrnWord => b"trn",
        Word::RefWord => b"ref",
        Word::ValWord => b"val",
        Word::BoxWord => b"box",
        Word::TagWord => b"tag",
        Word::IfWord => b"if",
        Word::ThenWord => b"then",
        Word::ElseifWord => b"elseif",
        Word::ElseWord => b"else",
        Word::EndWord => b"end",
        Word::WhileWord => b"while",
        Word::DoWord => b"do",
        Word::RecoverWord => b"recover",
        Word::ConsumeWord => b"consume",
        Word::ThisWord => b"this",
        Word::TrueWord => b"true",
        Word::FalseWord => b"false",
        Word::AndWord => b"and",
        Word::OrWord => b"or",
        Word::XorWord => b"xor",
        Word::NotWord => b"not",
        Word::InterfaceWord => b"interface",
        Word::StructWord => b"struct",
        Word::TypeWord => b"type",
        Word::UseWord => b"use",
        Word::EmbedWord => b"embed",
        Word::ReturnWord => b"return",
        Word::BreakWord => b"break",
        Word::ContinueWord => b"continue",
        Word::ErrorWord => b"error",
        Word::TryWord => b"try",
        Word::WithWord => b"with",
        Word::MatchWord => b"match",
        Word::ForWord => b"for",
        Word::InWord => b"in",
        Word::RepeatWord => b"repeat",
        Word::UntilWord => b"until",
        Word::WhereWord => b"where",
        Word::AsWord => b"as",
        Word::ObjectWord => b"object",
        Word::LambdaWord => b"lambda",
        Word::IfdefWord => b"ifdef",
        Word::IftypeWord => b"iftype",
        Word::CompileErrorWord => b"compile_error",
        Word::CompileIntrinsicWord => b"compile_intrinsic",
        Word::AddressofWord => b"addressof",
        Word::DigestofWord => b"digestof",
    }
}

/// The first of some words with this spelling. Where it is inlined, the words are known, and so are their lengths.
#[inline(always)]
fn find_word(words: &[Word], text: &[u8]) -> Option<Word>
    ensures { result ≡ finding.first_word words.now text.now }
{
    for word in words {
        if word_text(*word) == text {
            return Some(*word);
        }
    }
    None
}

/// The word with this spelling. Only words that begin with the first byte of the text are tried.
pub fn word_of(text: &[u8]) -> Option<Word>
    ensures { result ≡ finding.word_of text.now }
{
    if text.is_empty() {
        return find_word(&WORDS, text);
    }
    match text[0] {
        b'a' => find_word(&A_WORDS, text),
        b'b' => find_word(&B_WORDS, text),
        b'c' => find_word(&C_WORDS, text),
        b'd' => find_word(&D_WORDS, text),
        b'e' => find_word(&E_WORDS, text),
        b'f' => find_word(&F_WORDS, text),
        b'i' => find_word(&I_WORDS, text),
        b'l' => find_word(&L_WORDS, text),
        b'm' => find_word(&M_WORDS, text),
        b'n' => find_word(&N_WORDS, text),
        b'o' => find_word(&O_WORDS, text),
        b'p' => find_word(&P_WORDS, text),
        b'r' => find_word(&R_WORDS, text),
        b's' => find_word(&S_WORDS, text),
        b't' => find_word(&T_WORDS, text),
        b'u' => find_word(&U_WORDS, text),
        b'v' => find_word(&V_WORDS, text),
        b'w' => find_word(&W_WORDS, text),
        b'x' => find_word(&X_WORDS, text),
        b'g' => None,
        b'h' => None,
        b'j' => None,
        b'k' => None,
        b'q' => None,
        b'y' => None,
        b'z' => None,
        b'_' => None,
        _ => find_word(&WORDS, text),
    }
}
