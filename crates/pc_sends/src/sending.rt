//! The table of who sends what.
ghost use Rattle.std.specs.Prelude.{◌≡◌, ℕ, length, IfOk, List as Sequence};
ghost use Rattle.pc_semantics.specs.Step.{after};
ghost use Rattle.pc_sends.specs.Found.{ListsMayBe};
ghost use Rattle.pc_sends.specs.Held.{Held};
ghost use Rattle.pc_sends.specs.Reached.{IsReach};
ghost use Rattle.pc_sends.specs.Tables as spec;

use crate::conforming::list_all;
use crate::found::Found;
use crate::laws::held_covers;
use crate::never::list_never;
use crate::reaching::reach;
use crate::rows::list_rows;
use crate::sorting::ascending;
use crate::table::Table;
use crate::walk::Noted;
use pc_core::Core;
use std::alloc::{AllocError, Global};

// The table, from the methods in Reach.
fn table_of(alloc: Global, noted: &Noted, found: &Found) -> Result<Table, AllocError>
    requires lists { ListsMayBe noted.now.core.now noted.now.lists.now }
    requires reached { IsReach noted.now.core.now noted.now.entities.now found.now }
    ensures { IfOk result (λ table. spec.IsTable noted.now.core.now noted.now.entities.now table) }
{
    let rows = list_rows(alloc, noted, found)?;
    let never = list_never(alloc, noted.core, rows.as_slice())?;
    let reached = ascending(alloc, found)?;
    Ok(Table {
        rows,
        never,
        reached,
    })
}

/// Which entity's methods may send which messages, over every run at once. For each node, `entities` has the entity
/// that is noted of its value, or none; what is noted of the receivers of calls has to be held by every run.
///
/// # Errors
/// If memory runs out.
pub fn sends(alloc: Global, core: &Core, entities: &[Option<u32>]) -> Result<Table, AllocError>
    requires held { Held core.now entities.now }
    requires whole { length entities.now ≡ length core.now.nodes }

    // The rows, what is never sent and what is reached are as defined, each once and in order.
    ensures table { IfOk result (λ table. spec.IsTable core.now entities.now table) }

    // Over every list of actors, each frame is of a method that is reached, whatever is sent has its row, and no
    // message of a method that is never sent is in a mailbox.
    ensures tells { IfOk result (λ table. (list : Sequence ℕ) → spec.TableTells core.now table (after core.now list)) }
{
    core.formed();
    held_covers();
    let lists = list_all(alloc, core)?;
    let noted = Noted {
        core,
        entities,
        lists: lists.as_slice(),
    };
    let found = reach(alloc, &noted)?;
    table_of(alloc, &noted, &found)
}
