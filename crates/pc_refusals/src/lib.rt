//! What refuses a command: the lines on err, the stages that do not need a core to be made, and how a command's end is
//! written.
//!
//! Proved: each refusal has the status and the line of its definition; a file is read whole or refused by its length; a
//! stage's value or refusal is the one of its definition; a text that a command returns goes to out, and the line of a
//! refusal to err, or a first part of it if the sink fails. Everything here is below the crate that reads sources whole
//! and has the commands.
//!
//! Only tested, in `pc_top_tests`: that each of these is one call of `put`.
//!
//! How the code is to be read is in `CONTRIBUTING.md` (How to read the code).
#![tactic(auto)]

mod core_faults;
mod derivation;
mod finishing;
mod lex_faults;
mod lines;
mod name_faults;
mod reading;
mod refusal;
mod schedule;
mod source;
mod stop;
mod syntax;
mod typing;
mod words;
mod writing;

pub use derivation::{judge_annotation, judge_derivation, read_derivation};
pub use finishing::finish;
pub use lines::{
    make_counts_line, make_longer_line, make_many_actors_line, make_no_place_line,
    make_too_long_line,
};
pub use name_faults::refuse_name;
pub use reading::read_file;
pub use schedule::read_schedule;
pub use source::{SOURCE_LIMIT, Source};
pub use stop::Stop;
pub use syntax::{parse_source, read_tokens, read_tree};
pub use typing::{Accepted, type_source};
pub use words::refuse_words;
pub use writing::{put_answer, put_text};
