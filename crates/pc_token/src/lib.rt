//! Tokens: their kinds, the reserved words and the signs, and small tests on them.
//!
//! Proved: each reserved word is found by its spelling and by no other; the longest sign is found; tests on tokens.
//!
//! How the code is to be read is in `CONTRIBUTING.md` (How to read the code).
#![tactic(auto)]

mod asking;
mod kinds;
mod laws;
mod signs;
mod words;

pub use asking::{is_sign, is_word};
pub use kinds::{Token, TokenKind};
pub use laws::{one_sign_a_spelling, one_word_a_spelling};
pub use signs::{SIGNS, Sign, sign_at, sign_text};
pub use words::{WORDS, Word, word_of, word_text};
