//! Referees decide whether the note of a node satisfies its rule: one answers by the rules, and one also keeps what it
//! was asked.
//!
//! Proved: each referee answers as the rules say; `Rules` does not allocate and keeps nothing; `ListReferee` keeps the
//! number and the note of each node that it found right, in order, and nothing else.
//!
//! How the code is to be read is in `CONTRIBUTING.md` (How to read the code).
#![tactic(auto)]

mod list_referee;
mod referee;
mod rules;

pub use list_referee::ListReferee;
pub use referee::Referee;
pub use rules::Rules;
