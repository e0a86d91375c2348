//! Why a rule of the parser returns no tree, by the place of a token.
ghost use Rattle.pc_expr.specs.declared.stop.ParseStop.TheVariants.{Memory};
ghost use Rattle.std.specs.Prelude.{◌≡◌};

use std::alloc::{AllocError, AllocFailed};

/// Why a rule returns no tree, with the place of a token in the list of tokens.
#[derive(Clone, Copy, Debug, PartialEq, Eq)]
pub enum ParseStop {
    /// With the token at this place nothing begins any more.
    Unexpected(usize),
    /// The token at this place opens a level too many.
    TooDeep(usize),
    /// Memory ran out.
    Memory,
}

impl From<AllocError> for ParseStop {
    ghost from_gives = { λ _ e. e ≡ Memory };

    fn from(_error: AllocError) -> ParseStop {
        ParseStop::Memory
    }
}

impl<T: Drop> From<AllocFailed<T>> for ParseStop {
    ghost from_gives = { λ _ e. e ≡ Memory };

    fn from(_error: AllocFailed<T>) -> ParseStop {
        ParseStop::Memory
    }
}
