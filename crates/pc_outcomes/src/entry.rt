//! Outcomes.

use pc_base::List;

/// How a play ended.
#[derive(Clone, Copy, Debug, PartialEq, Eq, Hash)]
pub enum Ending {
    /// No actor has anything left to do.
    Done,
    /// It has as many steps or turns as it may have, and some actor still has something to do.
    Cut,
    /// Its last step would have made too long a text.
    TooLong,
}

/// A play of a seed: its outcome, that is, what was printed and how it ended, and how many steps it has.
#[derive(Debug, Drop)]
pub struct Play {
    /// What was printed, each text with a line end.
    pub text: List<u8>,
    pub ending: Ending,
    pub steps: u32,
}

/// What a play printed, and how it ended.
#[derive(Debug, PartialEq, Eq, Hash, Drop)]
pub struct Outcome {
    /// Each text with a line end.
    pub text: Vec<u8>,
    pub ending: Ending,
}

/// The seeds that have an outcome.
#[derive(Clone, Copy, Debug)]
pub struct Seeds {
    /// The first of them.
    pub first: u32,
    /// How many there are.
    pub number: u32,
    /// How many steps the play of the first one has.
    pub steps: u32,
}

/// An outcome with the seeds that have it.
#[derive(Debug, Drop)]
pub struct Entry {
    /// The first seed that has it.
    pub seed: u32,
    /// How many seeds have it.
    pub number: u32,
    /// How many steps the play of the first seed has.
    pub steps: u32,
    /// What is printed, each text with a line end.
    pub text: List<u8>,
    pub ending: Ending,
}
