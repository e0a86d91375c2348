//! Why bytes are not a derivation's text.
ghost use Rattle.std.specs.Prelude.{◌≡◌};

use std::alloc::AllocError;

/// Why bytes cannot be read as an annotation.
#[derive(Clone, Copy, Debug, PartialEq, Eq)]
pub enum DerivFault {
    /// The number, counted from 1, of the first malformed line. That may be a missing line, or the first line too many.
    BadLine(u32),
    /// The first line is well-formed, and a count in it exceeds its limit.
    TooMany,
    /// Memory ran out.
    Memory,
}

impl From<AllocError> for DerivFault {
    ghost use Rattle.pc_deriv.specs.declared.fault.DerivFault.TheVariants.{Memory};

    ghost from_gives = { λ _ e. e ≡ Memory };

    fn from(_: AllocError) -> DerivFault {
        DerivFault::Memory
    }
}
