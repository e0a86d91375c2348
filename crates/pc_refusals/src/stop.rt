//! Why a command ends before it is done.
ghost use Rattle.std.specs.Prelude.{◌≡◌};
ghost use Rattle.pc_refusals.specs.declared.stop.Stop.TheVariants.{Memory};

use pc_io::Bytes;
use std::alloc::AllocError;

/// Why a command ends before it is done.
#[derive(Drop)]
pub enum Stop {
    /// A refusal, with its status and its line on err, which is empty if there is none.
    Refused { status: u8, line: Bytes },
    /// The file with this name could not be read.
    File { name: Bytes },
    /// Out did not take its text.
    Sink,
    /// Memory ran out.
    Memory,
}

impl From<AllocError> for Stop {
    ghost from_gives = { λ _ e. e ≡ Memory };

    fn from(_: AllocError) -> Self {
        Stop::Memory
    }
}
