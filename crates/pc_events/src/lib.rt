//! The events of runs: what a step changes, which events come before which, and that no two events of a safe program
//! conflict without being ordered.
//!
//! `specs/Before.antt` defines what an event is and which events come before which: of two events of one actor, the
//! earlier one before the later one; what puts a message into a mailbox before the take of this message; and chains of
//! these. Messages are told apart by counting. `specs/Clock.antt` defines what the clock of an event is, and which events
//! conflict. These definitions are for every core, safe or not. Each public call does nothing, and its contract is a
//! law: for example, that a step ends as was said in advance of its actor (`ahead_agrees`), and that a step leaves all
//! fields unchanged except the one that its actor was about to write (`only_accesses_touch_fields`).
//!
//! `proofs/` describes what a step changes as data, for laws about several steps: the actor's own frames and mailbox,
//! one object, another actor's mailbox, one more actor, a printed text.
//! - `Changes` defines the change that a step plans, `Plans` proves that the step makes it, and `Told` what is known of
//!   it;
//! - `Plain` and `Right` go through all tasks once: what a task may write, make or send;
//! - `Stable` and `Kept`: a change leaves the plan of another actor's step unchanged;
//! - `Lists`, `Maps` and `Pass`: two changes commute;
//! - `Reach`: where objects are in every configuration that a run leads to;
//! - `OnlyAccesses`: what a step leaves unchanged in the objects.
//!
//! How the code is to be read is in `CONTRIBUTING.md` (How to read the code).
#![tactic(auto)]

mod laws;

pub use laws::{
    ahead_agrees, before_is_earlier, conflicts_are_ordered, earlier_comes_before,
    only_accesses_touch_fields,
};
