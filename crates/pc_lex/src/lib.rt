//! The tokens of a source text. `docs/grammar.md` describes them, `specs/Pieces.antt` defines them.
//!
//! Proved: `lex` returns the token list of the definition if there is one within the limits, and otherwise the first
//! fault with its byte; a text has one list or one first fault, and not both.
//!
//! Not proved: running times. Tests reach the limits, but measure no time.
//!
//! How the code is to be read is in `CONTRIBUTING.md` (How to read the code).
#![tactic(auto)]

mod classes;
mod comments;
mod fault;
mod laws;
mod lexing;
mod name_tokens;
mod numbers;
mod pieces;
mod texts;

pub use fault::LexFault;
pub use laws::{faults_are_told, tokens_are_one};
pub use lexing::lex;
pub use pc_token::{Sign, Token, TokenKind, Word};
