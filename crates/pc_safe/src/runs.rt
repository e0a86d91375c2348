//! The run of a list of actors, of a core that has a valid annotation.
ghost use Rattle.std.specs.Prelude.{◌≤◌, length, List as Sequence, ℕ};
ghost use Rattle.pc_valid.specs.Valid.{Valid};
ghost use Rattle.pc_semantics.specs.Step.{after};
ghost use Rattle.pc_semantics.specs.Safety.{LacksNothing};
ghost use Rattle.pc_machine.specs.Limits.{list_limit};
ghost use Rattle.pc_list_steps.specs.Ends.{RunEnds};

use pc_ann::Ann;
use pc_core::Core;
use pc_list_steps::{StepsFault as SafeFault, take_steps};
use pc_machine::{Machine, start};
use pc_types::accepted_never_lacks;
use std::alloc::Global;

/// Runs an accepted core: takes the steps of these actors, one after another, from its start. The list has at most
/// 4,000,000 actors.
///
/// The promise about every list of actors holds whatever the call returns, and for lists of any length.
///
/// # Errors
/// - `TooLong` iff a step of the list would make a text that is too long, with the place of the first such step and the
///   machine before it.
/// - `Memory` if memory ran out.
pub fn accepted_runs<'p>(
    alloc: Global,
    core: &'p Core,
    ann: &Ann,
    actors: &[u32],
) -> Result<Machine<'p>, SafeFault<'p>>
    requires valid { Valid core.now ann.now }
    requires few { length actors.now ≤ list_limit }

    // Over every list of actors, no actor's next step lacks its value, slot, object, field or method.
    ensures never_lacks { (list : Sequence ℕ) → LacksNothing core.now (after core.now list) }

    // The machine is the one after this list; or the list comes to a text that is too long.
    ensures ends { RunEnds core.now actors.now result }
{
    core.formed();
    accepted_never_lacks();
    let _notes = &ann.notes;
    let machine = start(alloc, core)?;
    take_steps(machine, actors)
}
