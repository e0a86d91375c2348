//! What a run returns.
ghost use Rattle.std.specs.Prelude.{◌≡◌};
ghost use Rattle.pc_run.specs.declared.report.RunFault.TheVariants.{Memory};

use std::alloc::{AllocError, AllocFailed};

/// The numbers of a run in which no step was too long.
#[derive(Clone, Copy, Debug, PartialEq, Eq)]
pub struct Report {
    /// How many steps moved.
    pub moved: u64,
    /// How many steps were skipped.
    pub skipped: u64,
    /// How many actors there are at the end.
    pub actors: u32,
    /// How many objects there are at the end.
    pub objects: u64,
    /// How many messages wait at the end.
    pub waiting: u64,
}

/// Why a run has no report.
#[derive(Clone, Copy, Debug, PartialEq, Eq)]
pub enum RunFault {
    /// The sink did not take what was written to it.
    Sink,
    /// The step with this number, counted from 1, would make a text that is too long.
    TooLong(u32),
    /// Memory ran out.
    Memory,
}

impl From<AllocError> for RunFault {
    ghost from_gives = { λ _ fault. fault ≡ Memory };

    fn from(_: AllocError) -> Self {
        RunFault::Memory
    }
}

impl<T: Drop> From<AllocFailed<T>> for RunFault {
    ghost from_gives = { λ _ fault. fault ≡ Memory };

    fn from(_: AllocFailed<T>) -> Self {
        RunFault::Memory
    }
}
