//! `schedule SRC SEED`: the line of the list that a seed chooses.
ghost use Rattle.std.specs.Prelude.{IfOk};
ghost use Rattle.pc_commands.specs.Schedule.{IsChosenLine};

use pc_base::List;
use pc_choose::{choose, lists_are_short};
use pc_core::Core;
use pc_machine::start;
use pc_sched_lines::line_of;
use std::alloc::{AllocError, Global};

/// The list of steps that a seed chooses for a core, as one line of a schedule. The one error is that memory ran out.
pub fn write_chosen(alloc: Global, core: &Core, seed: u64) -> Result<List<u8>, AllocError>
    ensures { IfOk result (IsChosenLine seed core.now) }
{
    lists_are_short();
    let mut machine = start(alloc, core)?;
    let list = choose(alloc, &mut machine, seed)?;
    line_of(alloc, list.as_slice())
}
