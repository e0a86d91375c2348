//! Why bytes are not a schedule, with the place of the fault.
ghost use Rattle.std.specs.Prelude.{◌≡◌};

use std::alloc::AllocError;

/// Why a text is not a schedule, with the offset of a word's first byte, counted from 0.
#[derive(Clone, Copy, Debug, PartialEq, Eq)]
pub enum SchedFault {
    /// The word that begins here is no turn.
    BadWord(u32),
    /// With the word that begins here, there are more than 1,000,000 turns.
    TooMany(u32),
    /// Memory ran out.
    Memory,
}

impl From<AllocError> for SchedFault {
    ghost use Rattle.pc_sched.specs.declared.fault.SchedFault.TheVariants.{Memory};

    ghost from_gives = { λ _ e. e ≡ Memory };

    fn from(_: AllocError) -> SchedFault {
        SchedFault::Memory
    }
}
