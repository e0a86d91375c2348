//! Why the names of a file are refused, in words.
//!
//! Proved: `explain_names` writes exactly the explanation of a fault, or memory ran out: the refusal's line, the
//! source's line with carets, the entity and the method that contain the name, and the rule. For a name that nothing
//! has, the rule lists the locals, parameters, fields and methods that could be there, including an added `create` and
//! the methods that the entity takes over; for a name that is taken, the first thing that has it.
//!
//! How the code is to be read is in `CONTRIBUTING.md` (How to read the code).
#![tactic(auto)]

mod bearers;
mod double;
mod explaining;
mod homes;
mod lists;
mod marks;
mod rows;
mod spans;
mod unknown;

pub use bearers::{Bearer, kind_word};
pub use explaining::explain_names;
pub use marks::Mark;
