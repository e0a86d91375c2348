//! Why there is no table of outcomes.
ghost use Rattle.std.specs.Prelude.{◌≡◌};
ghost use Rattle.pc_outcomes.specs.declared.fault.OutcomesFault.TheVariants.{Memory};

use std::alloc::{AllocError, AllocFailed};

/// Why there is no table of outcomes.
#[derive(Clone, Copy, Debug, PartialEq, Eq)]
pub enum OutcomesFault {
    /// The plays of the seeds up to this one have more than 100,000,000 steps.
    Steps(u32),
    /// The texts of the different outcomes of the seeds up to this one have more than 67,108,864 bytes.
    Texts(u32),
    /// Out of memory.
    Memory,
}

impl From<AllocError> for OutcomesFault {
    ghost from_gives = { λ _ fault. fault ≡ Memory };

    fn from(_: AllocError) -> Self {
        OutcomesFault::Memory
    }
}

impl<T: Drop> From<AllocFailed<T>> for OutcomesFault {
    ghost from_gives = { λ _ fault. fault ≡ Memory };

    fn from(_: AllocFailed<T>) -> Self {
        OutcomesFault::Memory
    }
}
