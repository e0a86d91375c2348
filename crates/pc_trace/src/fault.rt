//! Why a run was not traced to its end.
ghost use Rattle.pc_trace.specs.declared.fault.AcceptedFault.TheVariants as accepted;
ghost use Rattle.pc_trace.specs.declared.fault.TraceFault.TheVariants as fault;
ghost use Rattle.std.specs.Prelude.{◌≡◌};

use std::alloc::AllocError;

/// Why the run of any core was not traced to its end. Places of the list are counted from 1.
#[derive(Clone, Copy, Debug, PartialEq, Eq)]
pub enum TraceFault {
    /// The step at this place would make a text that is too long.
    TooLong(u64),
    /// The step at this place lacks something.
    Lacks(u64),
    /// The step at this place would make the 65th actor.
    TooMany(u64),
    /// Memory ran out.
    Memory,
}

/// Why the run of a safe core was not traced to its end. Places of the list are counted from 1.
#[derive(Clone, Copy, Debug, PartialEq, Eq)]
pub enum AcceptedFault {
    /// The step at this place would make a text that is too long.
    TooLong(u64),
    /// The step at this place would make the 65th actor.
    TooMany(u64),
    /// Memory ran out.
    Memory,
}

impl From<AllocError> for TraceFault {
    ghost from_gives = { λ _ e. e ≡ fault.Memory };

    fn from(_: AllocError) -> TraceFault {
        TraceFault::Memory
    }
}

impl From<AllocError> for AcceptedFault {
    ghost from_gives = { λ _ e. e ≡ accepted.Memory };

    fn from(_: AllocError) -> AcceptedFault {
        AcceptedFault::Memory
    }
}
