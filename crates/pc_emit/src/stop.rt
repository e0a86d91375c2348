//! Why a walk ends early.
ghost use Rattle.pc_emit.specs.declared.stop.EmitStop.TheVariants.{Memory};
ghost use Rattle.std.specs.Prelude.{◌≡◌};

use std::alloc::{AllocError, AllocFailed};

/// Why the nodes of a body were not all emitted.
#[derive(Clone, Copy, Debug, PartialEq, Eq)]
pub enum EmitStop {
    /// The program would have more than 200,000 nodes.
    Full,
    /// Memory ran out.
    Memory,
}

impl From<AllocError> for EmitStop {
    ghost from_gives = { λ _ e. e ≡ Memory };

    fn from(_: AllocError) -> EmitStop {
        EmitStop::Memory
    }
}
