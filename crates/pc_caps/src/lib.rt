//! Reference capabilities, their forms, the order on forms, the tables on them, and the words for them.
//!
//! Proved: `below` is the closure of the ten pairs; `plain`, `unalias`, `stored`, `fits`, `view`, `taken`, `may_write`,
//! `lift`, `sendable` and `sendable_form` are their tables; `cap_name` and `form_name` are their words.
//!
//! How the code is to be read is in `CONTRIBUTING.md` (How to read the code).
#![tactic(auto)]

mod capability;
mod order;
mod place;
mod words;

pub use capability::{Cap, Form, plain, sendable, sendable_form, stored, unalias};
pub use order::{below, fits};
pub use place::{lift, may_write, taken, view};
pub use words::{cap_name, form_name};
