//! The laws of words and signs, as calls that do nothing.
ghost use Rattle.pc_token.specs.Laws.{WordFound, WordOnly, SignFound, SignNone, SignOnly};

/// Each word is found by its spelling, and by no other; so no two words are spelled alike.
pub fn one_word_a_spelling()
    ensures found { WordFound }
    ensures only { WordOnly }
{}

/// The sign found at the start of a text is the longest, none is found if the text begins with none, and no two signs
/// are spelled alike.
pub fn one_sign_a_spelling()
    ensures found { SignFound }
    ensures none { SignNone }
    ensures only { SignOnly }
{}
