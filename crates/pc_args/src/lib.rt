//! The words of the command line, read by clap, and the numbers that they spell.
//!
//! Proved: `read_words` returns the command that the words ask for, by clap's matches of one command line, or refuses
//! the words if it does not take them, or memory ran out. Words ask for nothing iff they are refused
//! (`only_refused_words_ask_for_nothing`), and each form with names that are neither empty nor begin with `-` asks for
//! its command (`written_forms_are_taken`). `seed_of`, `size_of` and `number_of` read numbers from words, or report
//! that they are not numbers.
//!
//! How the code is to be read is in `CONTRIBUTING.md` (How to read the code).
#![tactic(auto)]

mod laws;
mod numbers;
mod words;

pub use laws::{only_refused_words_ask_for_nothing, written_forms_are_taken};
pub use numbers::{number_of, seed_of, size_of};
pub use words::{Command, WordsFault, read_words};
