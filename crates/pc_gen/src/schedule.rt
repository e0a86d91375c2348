//! The schedule by which a generated program is run.
ghost use Rattle.std.specs.Prelude.{◌≡◌, ◌≤◌, IfOk};
ghost use Rattle.pc_gen.specs.Generated.{schedule};
ghost use Rattle.pc_sched.specs.Schedules.{turn_limit, total};

use pc_base::List;
use pc_sched::Turn;
use std::alloc::{AllocError, Global};

/// How many turns each actor of a program takes.
const OWN_TURNS: u32 = 400;

/// The schedule of a program of this size: `Main` and the workers take 400 turns each, one after the other, and then
/// the output stream takes one turn for each of these.
pub fn schedule_of(alloc: Global, size: u32) -> Result<List<Turn>, AllocError>
    requires { size ≤ 900 }
    ensures turns { IfOk result (λ turns. turns ≡ schedule size) }
    ensures few { IfOk result (λ turns. total turns ≤ turn_limit) }
{
    let mut turns = List::new(alloc);
    for i in 0..size + 1 {
        turns.push(Turn {
            actor: i + 1,
            times: OWN_TURNS,
        })?;
    }
    turns.push(Turn {
        actor: 0,
        times: size + 1,
    })?;
    Ok(turns)
}
