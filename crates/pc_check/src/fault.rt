//! Why a core has no annotation.
ghost use Rattle.std.specs.Prelude.{◌≡◌};

use pc_ann::Ann;
use pc_masks::Mask;
use pc_sub::DeclFault;
use std::alloc::AllocError;

/// Why a core has no annotation.
#[derive(Debug, Drop, PartialEq)]
pub enum CheckFault {
    /// The first declaration that fails.
    Decl(DeclFault),
    /// No rule applies to this node.
    NoRule {
        /// The node's number.
        node: u32,
        /// The live slots that reach it.
        live: Mask,
        /// The set fields that reach it.
        set: Mask,
        /// A type for each slot, and the notes of the nodes before it.
        so_far: Ann,
    },
    /// A constructor leaves a field unset.
    Unset {
        /// The constructor's number.
        method: u32,
        /// A type for each slot, and the notes of the nodes up to and including the constructor's body.
        so_far: Ann,
    },
    /// Memory ran out.
    Memory,
}

impl From<AllocError> for CheckFault {
    ghost use Rattle.pc_check.specs.declared.fault.CheckFault.TheVariants.{Memory};

    ghost from_gives = { λ _ e. e ≡ Memory };

    fn from(_: AllocError) -> CheckFault {
        CheckFault::Memory
    }
}
