//! Why a list of actors was not run to its end.
ghost use Rattle.pc_list_steps.specs.declared.fault.StepsFault.TheVariants.{Memory};
ghost use Rattle.std.specs.Prelude.{◌≡◌};

use pc_machine::Machine;
use std::alloc::AllocError;

/// Why a list of actors was not run to its end.
#[derive(Drop)]
pub enum StepsFault<'p> {
    /// The step at this place of the list, counted from 1, would make a text that is too long. The machine is the one
    /// before that step.
    TooLong { step: u64, machine: Machine<'p> },
    /// Memory ran out.
    Memory,
}

impl<'p> From<AllocError> for StepsFault<'p> {
    ghost from_gives = { λ _ e. e ≡ Memory };

    fn from(_: AllocError) -> StepsFault<'p> {
        StepsFault::Memory
    }
}
