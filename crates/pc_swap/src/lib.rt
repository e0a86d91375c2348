//! When two successive steps of a list of actors may be swapped, and the exchange of two turns of a list.
//! `specs/Apart.antt` defines when the next steps of two actors are apart; `docs/steps.md` explains it with example
//! runs.
//!
//! Proved: in a safe program, steps that are apart may be swapped (`steps_swap`, `lists_swap`). `apart` succeeds iff
//! the next steps of two actors of a machine are apart; otherwise it names the first part that fails
//! (`kept_are_not_apart`). It does not allocate. `swap` exchanges two turns of a list iff no step before them makes too
//! long a text and their steps are apart, and then both lists lead to the same configuration.
//!
//! How the code is to be read is in `CONTRIBUTING.md` (How to read the code).
#![tactic(auto)]

mod kept;
mod laws;
mod parts;
mod swapping;

pub use kept::{Kept, SwapFault};
pub use laws::{arrivals_decide, kept_are_not_apart, lists_swap, steps_swap};
pub use parts::apart;
pub use swapping::swap;
