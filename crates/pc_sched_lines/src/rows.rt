//! A list of steps as turns that are as long as they can be.
ghost use Rattle.std.specs.Prelude.{◌≡◌, ◌++◌, ◌∷◌, [], ◌+◌, ◌<◌, ◌≤◌, ℕ, IfOk, length, List as Sequence};
ghost use Rattle.pc_sched_lines.specs.Rows.{RowsOf};
ghost use Rattle.pc_sched.specs.Schedules.{turn_limit};

use pc_base::List;
use pc_sched::Turn;
use std::alloc::{AllocError, Global};

// The row in the making, which follows the finished ones, after a step of this actor. If the step ends it, it is added
// to them.
fn with_step(rows: &mut List<Turn>, row: Turn, actor: u32) -> Result<Turn, AllocError>
    requires { row.times < turn_limit }
    ensures { (list : Sequence ℕ) → RowsOf list (rows.old ++ row ∷ []) → IfOk result (λ next. RowsOf (list ++ actor ∷ []) (rows.new ++ next ∷ [])) }
{
    if actor == row.actor {
        return Ok(Turn {
            actor,
            times: row.times + 1,
        });
    }
    rows.push(row)?;
    Ok(Turn { actor, times: 1 })
}

// The rows of a list that begins with a step of this actor.
fn rows_from(alloc: Global, first: u32, rest: &[u32]) -> Result<List<Turn>, AllocError>
    requires { length rest.now + 1 ≤ turn_limit }
    ensures { IfOk result (RowsOf (first ∷ rest.now)) }
{
    let mut rows = List::new(alloc);
    let mut row = Turn {
        actor: first,
        times: 1,
    };
    for actor in rest {
        row = with_step(&mut rows, row, *actor)?;
    }
    rows.push(row)?;
    Ok(rows)
}

/// The rows of a list of at most 1,000,000 steps: turns of its steps, none of which could be longer.
pub fn rows_of(alloc: Global, list: &[u32]) -> Result<List<Turn>, AllocError>
    requires { length list.now ≤ turn_limit }
    ensures { IfOk result (RowsOf list.now) }
{
    match list {
        [] => Ok(List::new(alloc)),
        [first, rest @ ..] => rows_from(alloc, *first, rest),
    }
}
