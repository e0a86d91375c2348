//! The sentence for a condition that a rule requires of a node and that does not hold.
//!
//! Proved: for each of the 30 conditions, `push_sentence` appends exactly the sentence of its definition, or memory ran
//! out; for a part without a type, the sentence says why it has none. A sentence is a constant of `texts` with gaps, and
//! `push_filled` appends it with what fills them.
//!
//! How the code is to be read is in `CONTRIBUTING.md` (How to read the code).
#![tactic(auto)]

mod fills;
mod goals;
mod sentences;
mod slots;
mod stop;
mod texts;
mod untyped;

pub use fills::{Fill, push_filled};
pub use sentences::push_sentence;
pub use slots::lost_slot;
pub use stop::Stop;
pub use untyped::Step;
