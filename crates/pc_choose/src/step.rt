//! Steps that were taken.

use pc_machine::{Ahead, Outcome};

/// A step that was taken.
#[derive(Clone, Copy)]
pub struct Step {
    /// The actor that took it.
    pub actor: u32,
    /// How it ended.
    pub outcome: Outcome,
}

/// A step that was taken, and the next step of its actor.
#[derive(Clone, Copy)]
pub struct Onward {
    pub step: Step,
    /// Known if the step moved.
    pub ahead: Option<Ahead>,
}
