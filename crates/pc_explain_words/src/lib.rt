//! Words for the parts of a core: capabilities, forms, types, names and methods, and why a method cannot replace
//! another.
//!
//! Proved: each function appends exactly the bytes of its definition, or memory ran out; and a method can replace
//! another iff there is nothing about it that does not fit (`misfits_are_all`).
//!
//! How the code is to be read is in `CONTRIBUTING.md` (How to read the code).
#![tactic(auto)]

mod caps;
mod chains;
mod forms;
mod lacks;
mod laws;
mod methods;
mod misfits;
mod scene;

pub use caps::{cap_word, form_word, new_word, push_fitting, push_takes, push_taking};
pub use forms::{
    entity_name, name_text, push_entity, push_place_type, push_type, push_with_article,
};
pub use lacks::{methods_at, push_why_not_below};
pub use laws::misfits_are_all;
pub use methods::{
    push_home, push_method, push_method_name, push_method_words, push_signature, push_taken,
};
pub use misfits::{Misfit, first_misfit, push_misfit};
pub use scene::{Scene, child, is_this};
