//! What test crates share: the steps from a text to its tokens, its tree and its core, why a test does not find what it
//! should, whole programs, and the derivation of the smallest program with a local, as text and as notes. Both follow
//! the format's description, and were worked out by hand.
#![tactic(auto)]

mod cores;
mod lines;
mod notes;
pub mod programs;
mod reasons;
mod texts;

pub use cores::core_of;
pub use lines::{LINES, LINES2, variant_of};
pub use notes::{NODES, NodeRow, SLOTS, note};
pub use reasons::{Wrong, compared, place_of_difference};
pub use texts::{tokens_of, tree_of};
