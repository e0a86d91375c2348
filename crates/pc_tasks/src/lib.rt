//! The tasks of the machine that stay within one frame and the objects: all but the making of objects and actors,
//! calls, messages and returns. `specs/Inside.antt` states how such a task ends.
//!
//! Proved: `run_inside` does the first task of a frame, unless it is Make, Spawn, Invoke or Return, as defined in
//! `pc_semantics`: all kinds of evaluation, fields, slots, operators and choices. A step that lacks something, that
//! would make too long a text, or that runs out of memory leaves the frame and the objects unchanged. `inside_step`
//! leads from there to the definition of an actor's `step`.
//!
//! How the code is to be read is in `CONTRIBUTING.md` (How to read the code).
#![tactic(auto)]

mod ahead;
mod apply;
mod choices;
mod evaluation;
mod fields;
mod frames;
mod identity;
mod inside;
mod operators;
mod values;

pub use ahead::ahead_inside;
pub use frames::push_value;
pub use inside::{is_inside, run_inside};
pub use values::none;
