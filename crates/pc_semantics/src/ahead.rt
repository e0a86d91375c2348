//! What an actor's next step is.

/// What the next step of an actor is.
#[derive(Clone, Copy, Debug, PartialEq, Eq)]
pub enum Ahead {
    /// There is no such actor, or it is idle and no message waits for it.
    Skipped,
    /// The step lacks something.
    Lacks,
    /// The step would make a text that is longer than a text may be.
    TooLong,
    /// The oldest message is taken.
    Take,
    /// A new actor is made.
    Spawn,
    /// A message goes to the actor with this number.
    Send(u32),
    /// Any other task of the running frame.
    Task,
}
