//! Schedules that the machine chooses: for each seed a list of steps, repeatable and fair. `docs/schedules.md` explains
//! how it is chosen; `specs/Choice.antt` and `specs/Lists.antt` define it.
//!
//! Proved: a `Chooser` takes the step of the actor whose turn it is, and `choose` returns the list of a seed. Laws
//! state that each seed has exactly one list, how long it is, how many turns it has and how it ends (`lists_are_one`,
//! `lists_are_short`, `lists_are_in_turns`, `steps_move`, `lists_end`), who is able after a step (`skips_unable`,
//! `able_stay`, `few_change`), and how long an actor waits under seed 0 (`round_robin_is_fair`).
//!
//! Not proved: time. No test measures it.
//!
//! How the code is to be read is in `CONTRIBUTING.md` (How to read the code).
#![tactic(auto)]

mod able;
mod chooser;
mod choosing;
mod laws;
mod point;
mod step;
mod turns;

pub use able::count_able;
pub use chooser::Chooser;
pub use choosing::{MOST_STEPS, choose};
pub use laws::{
    able_stay, few_change, lists_are_in_turns, lists_are_one, lists_are_short, lists_end,
    round_robin_is_fair, skips_unable, steps_move,
};
pub use step::{Onward, Step};
