//! What a machine is and does: its configurations, one step of an actor, runs over every schedule, and when a program
//! is safe. These are definitions, in `specs/`; `docs/machine.md` explains them. The types of the parts of a
//! configuration are declared here. `specs/Ahead.antt` states what an actor's next step is, before it is made, by the
//! cases of the step.
//!
//! Proved: What a program does, as definitions: configurations, one step of an actor, runs over every schedule, races,
//! and when a program is safe. Small programs are run in them (`hello_runs` and its like): texts and counts, messages
//! in order, each lack, a text that is too long, and races that are seen. A step that does not move leaves the
//! configuration as it was (`only_moves_change`). The types of stacks, tasks, slots and mailboxes, with their calls:
//! `Tasks` and `Slots` are the lists of the definitions, even if they need less memory.
//!
//! How the code is to be read is in `CONTRIBUTING.md` (How to read the code).
#![tactic(auto)]

mod access;
mod actors;
mod ahead;
mod arguments;
mod first;
mod frames;
mod laws;
mod mailbox;
mod outcome;
mod slots;
mod stack;
mod tasks;

pub use access::Access;
pub use actors::Actor;
pub use ahead::Ahead;
pub use arguments::Arguments;
pub use first::main_create;
pub use frames::{Frame, Task};
pub use laws::{
    a_constructor_sets_its_fields, a_spawned_actor_has_its_message, a_text_may_be_too_long,
    a_while_takes_its_turns, each_lack_comes, hello_runs, messages_are_taken_in_order,
    no_actor_no_step, numbers_wrap, one_branch_is_taken, only_moves_change, races_are_seen,
    the_right_side_is_looked_at_when_needed,
};
pub use mailbox::{Mailbox, Message};
pub use outcome::{Lack, Outcome};
pub use slots::Slots;
pub use stack::Stack;
pub use tasks::Tasks;
