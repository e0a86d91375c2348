//! The faults of a file's names.

ghost use Rattle.std.specs.Prelude.{◌≡◌};

use pc_base::Span;
use std::alloc::AllocError;

/// What a file has too many of.
#[derive(Clone, Copy, Debug, PartialEq, Eq)]
pub enum Which {
    /// More than 1,000 entities.
    Entities,
    /// More than 10,000 methods, counting those that entities take over and added constructors.
    Methods,
    /// More than 64 slots of a method.
    Slots,
    /// More than 64 fields of an entity.
    Fields,
    /// More than 200,000 nodes.
    Nodes,
    /// A text of more than 4,096 bytes.
    Text,
}

/// A fault of a name, and its place.
#[derive(Clone, Copy, Debug, PartialEq, Eq)]
pub enum NameFault {
    /// A name that is already taken.
    Double(Span),
    /// A name that is not defined.
    Unknown(Span),
    /// There is no entity `Main`.
    NoMain,
    /// `Main` is not an actor, or has no constructor `create` with exactly one parameter, of type `Env val`.
    BadMain(Span),
    /// A trait from which a chain of `is` leads back to it.
    Cycle(Span),
    /// One too many of this kind.
    TooMany(Which, Span),
    /// Memory ran out.
    Memory,
}

impl From<AllocError> for NameFault {
    ghost use Rattle.pc_names.specs.declared.fault.NameFault.TheVariants.{Memory};

    ghost from_gives = { λ _ e. e ≡ Memory };

    fn from(_: AllocError) -> NameFault {
        NameFault::Memory
    }
}
