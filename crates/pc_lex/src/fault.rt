//! Why a text has no tokens, with the byte of the fault.
ghost use Rattle.std.specs.Prelude.{◌≡◌};

use std::alloc::AllocError;

/// Why a text has no token list, with a byte offset counted from 0.
#[derive(Clone, Copy, Debug, PartialEq, Eq)]
pub enum LexFault {
    /// No blank, comment or token begins with this byte.
    BadByte(u32),
    /// The comment, text or doc that begins here does not end.
    Unclosed(u32),
    /// The digits that begin here are not a number below 2^64 followed by something that may follow a number.
    BadNumber(u32),
    /// The `\` here begins no escape.
    BadEscape(u32),
    /// The token that begins here is one too many.
    TooMany(u32),
    /// Memory ran out.
    Memory,
}

impl From<AllocError> for LexFault {
    ghost use Rattle.pc_lex.specs.declared.fault.LexFault.TheVariants.{Memory};

    ghost from_gives = { λ _ e. e ≡ Memory };

    fn from(_: AllocError) -> LexFault {
        LexFault::Memory
    }
}
