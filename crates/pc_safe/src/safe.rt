//! Safety of accepted cores, over every list of actors.
ghost use Rattle.std.specs.Prelude.{◌≤◌, length};
ghost use Rattle.pc_valid.specs.Valid.{Valid, Derivable};
ghost use Rattle.pc_semantics.specs.Safety.{Safe};
ghost use Rattle.pc_safe.specs.Apart.{EndsApart};
ghost use Rattle.pc_machine.specs.Limits.{list_limit};
ghost use Rattle.pc_list_steps.specs.Ends.{RunEnds};

use crate::runs::accepted_runs;
use pc_ann::Ann;
use pc_core::Core;
use pc_list_steps::StepsFault as SafeFault;
use pc_machine::Machine;
use pc_regions::valid_is_safe;
use std::alloc::Global;

/// Runs an accepted core: takes the steps of these actors, one after another, from its start. The list has at most
/// 4,000,000 actors.
///
/// The core is safe whatever the call returns, and for lists of any length.
///
/// # Errors
/// - `TooLong` iff a step of the list would make a text that is too long, with the place of the first such step and the
///   machine before it.
/// - `Memory` if memory ran out.
pub fn accepted_is_safe<'p>(
    alloc: Global,
    core: &'p Core,
    ann: &Ann,
    actors: &[u32],
) -> Result<Machine<'p>, SafeFault<'p>>
    requires valid { Valid core.now ann.now }
    requires few { length actors.now ≤ list_limit }

    // After every list of actors, no two of them race, what waits in messages is let alone, and no actor's next step
    // lacks its value, slot, object, field or method.
    ensures safe { Safe core.now }

    // The machine is the one after this list; or the list comes to a text that is too long.
    ensures ends { RunEnds core.now actors.now result }

    // In the machine no two actors race, and what waits in messages is let alone.
    ensures apart { EndsApart core.now result }
{
    core.formed();
    valid_is_safe();
    let _notes = &ann.notes;
    accepted_runs(alloc, core, ann, actors)
}

/// A core is safe if it has a valid annotation. The call does nothing.
pub fn derivable_is_safe(core: &Core)
    requires derivable { Derivable core.now }
    ensures safe { Safe core.now }
{
    core.formed();
    valid_is_safe();
}
