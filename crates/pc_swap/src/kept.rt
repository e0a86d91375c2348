//! Why two steps keep their order.
ghost use Rattle.std.specs.Prelude.{◌≡◌};
ghost use Rattle.pc_swap.specs.declared.kept.SwapFault.TheVariants as fault;

use std::alloc::AllocError;

/// Why the next steps of two actors are not apart.
#[derive(Clone, Copy, Debug, PartialEq, Eq)]
pub enum Kept {
    /// They are steps of the same actor.
    SameActor,
    /// One of them does not move.
    NotMoved,
    /// Both send a message to the same actor.
    OneMailbox,
    /// Both make an actor.
    BothSpawn,
}

/// Why two turns of a list were not exchanged.
#[derive(Clone, Copy, Debug, PartialEq, Eq)]
pub enum SwapFault {
    /// Their steps are not apart.
    Kept(Kept),
    /// The step at this place of the list, counted from 1, would make a text that is too long, and it is before them.
    TooLong(u32),
    /// Memory ran out.
    Memory,
}

impl From<Kept> for SwapFault {
    ghost from_gives = { λ kept e. e ≡ fault.Kept kept };

    fn from(kept: Kept) -> SwapFault {
        SwapFault::Kept(kept)
    }
}

impl From<AllocError> for SwapFault {
    ghost from_gives = { λ _ e. e ≡ fault.Memory };

    fn from(_: AllocError) -> SwapFault {
        SwapFault::Memory
    }
}
