//! What to do about a condition that does not hold.
//!
//! Proved: `chosen` returns the hint of its definition, and `push_hint` appends exactly its words, or memory ran out.
//! What a hint promises fits what it is proposed for (`hints_fit`): it promises that the condition holds, but not that
//! the program is then accepted.
//!
//! How the code is to be read is in `CONTRIBUTING.md` (How to read the code).
#![tactic(auto)]

mod choice;
mod hint;
mod hints;
mod laws;
mod nodes;
mod texts;

pub use choice::{Wanted, chosen};
pub use hint::Hint;
pub use hints::push_hint;
pub use laws::hints_fit;
