//! The steps of turns as one list.
ghost use Rattle.std.specs.Prelude.{◌≡◌, ◌++◌, replicate, IfOk, OnOk};
ghost use Rattle.pc_run.specs.Spreading.{spread};

use pc_base::List;
use pc_sched::Turn;
use std::alloc::{AllocError, Global};

// Appends the steps of a turn to a list.
fn push_steps(list: &mut List<u32>, turn: Turn) -> Result<(), AllocError>
    ensures { OnOk result (list.new ≡ list.old ++ replicate turn.times turn.actor) }
{
    for _step in 0..turn.times {
        list.push(turn.actor)?;
    }
    Ok(())
}

/// The actors of all steps of these turns, one after another.
pub fn steps_of(alloc: Global, turns: &[Turn]) -> Result<List<u32>, AllocError>
    ensures { IfOk result (λ list. list ≡ spread turns.now) }
{
    let mut list = List::new(alloc);
    for turn in turns {
        push_steps(&mut list, *turn)?;
    }
    Ok(list)
}
