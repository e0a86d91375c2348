//! The faults of a body.
ghost use Rattle.pc_body_walks.specs.declared.fault.BodyFault.TheVariants.{Memory};
ghost use Rattle.std.specs.Prelude.{◌≡◌};

use pc_base::Span;
use std::alloc::AllocError;

/// A fault of a body, and its place.
#[derive(Clone, Copy, Debug, PartialEq, Eq)]
pub enum BodyFault {
    /// A name that is not defined where it is used: a bare name that is no local, parameter or field, and no method
    /// followed by arguments; a consumed name that is no local or parameter; a type that is no entity; a type name that
    /// has no value, used as an expression; and the missing constructor of a class or an actor.
    Unknown(Span),
    /// A local with the name of a visible local or parameter, or of a field.
    Double(Span),
    /// A text of more than 4,096 bytes.
    LongText(Span),
    /// Memory ran out.
    Memory,
}

impl From<AllocError> for BodyFault {
    ghost from_gives = { λ _ e. e ≡ Memory };

    fn from(_: AllocError) -> BodyFault {
        BodyFault::Memory
    }
}
