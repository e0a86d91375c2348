//! The steps of a list of actors.
ghost use Rattle.std.specs.Prelude.{◌≡◌, ◌≤◌, IfErr, length, List as Sequence, ℕ};
ghost use Rattle.pc_semantics.specs.Configurations.{start as beginning};
ghost use Rattle.pc_semantics.specs.Step.{after};
ghost use Rattle.pc_semantics.specs.Safety.{LacksNothing};
ghost use Rattle.pc_machine.specs.Limits.{list_limit};
ghost use Rattle.pc_list_steps.specs.Ends.{RunEnds, StopsWithin};

use crate::fault::StepsFault;
use pc_machine::{Machine, Outcome};

/// Takes the steps of these actors, one after another, in a machine that was just started and whose core never lacks
/// anything. The list has at most 4,000,000 actors.
///
/// # Errors
/// - `TooLong` iff a step of the list would make a text that is too long, with the place of the first such step and the
///   machine before it.
/// - `Memory` if memory ran out.
pub fn take_steps<'p>(machine: Machine<'p>, actors: &[u32]) -> Result<Machine<'p>, StepsFault<'p>>
    requires started { machine.configuration ≡ beginning machine.core }
    requires never_lacks { (list : Sequence ℕ) → LacksNothing machine.core (after machine.core list) }
    requires few { length actors.now ≤ list_limit }
    ensures ends { RunEnds machine.entry.core actors.now result }
    ensures within { IfErr result (StopsWithin (length actors.now)) }
{
    let mut machine = machine;
    for at in 0..actors.len() {
        match machine.step(actors[at])? {
            Outcome::Moved => {}
            Outcome::Skipped => {}
            Outcome::TooLong => {
                let step = at as u64 + 1;
                return Err(StepsFault::TooLong { step, machine });
            }
            Outcome::Lacks(_) => unreachable!(),
        }
    }
    Ok(machine)
}
