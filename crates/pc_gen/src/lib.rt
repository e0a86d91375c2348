//! A program generated from a number: a chain of actors that pass one object on, each with a task drawn at random.
//!
//! `docs/generator.md` describes the program, `specs/Generated.antt` defines its text and `specs/Program.antt` its tree.
//!
//! Proved: `make` returns the tree of the program of a seed and a size, as defined by the draws from the seed.
//! Its printed text is the one that is written out line by line (`generated_is_printed`). `schedule_of` returns the turns
//! by which it is run, within the limit. It is not proved that these programs are accepted.
//!
//! How the code is to be read is in `CONTRIBUTING.md` (How to read the code).
#![tactic(auto)]

mod bodies;
mod laws;
mod parts;
mod program;
mod schedule;
mod task;

pub use laws::generated_is_printed;
pub use program::make;
pub use schedule::schedule_of;
