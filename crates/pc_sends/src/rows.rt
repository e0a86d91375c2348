//! The rows of the table.
ghost use Rattle.std.specs.Prelude.{◌≡◌, ◌↔◌, ◌++◌, ℕ, map, IfOk, OnOk};
ghost use Rattle.pc_base.specs.Lists.{Has};
ghost use Rattle.pc_sends.specs.Found.{ListsMayBe};
ghost use Rattle.pc_sends.specs.Tables.{Sends};
ghost use Rattle.pc_sends.specs.Reached.{IsReach};
ghost use Rattle.pc_sends.specs.Tables as spec;

use crate::found::Found;
use crate::messages::sent_by;
use crate::table::Row;
use crate::walk::Noted;
use pc_base::List;
use std::alloc::{AllocError, Global};

// Appends the rows of an entity.
fn add_rows(from: u32, targets: &[u32], rows: &mut List<Row>) -> Result<(), AllocError>
    ensures { OnOk result (rows.new ≡ rows.old ++ map (spec.row from) targets.now) }
{
    for target in targets {
        rows.push(Row {
            from,
            target: *target,
        })?;
    }
    Ok(())
}

/// Who sends what, entity by entity.
pub(crate) fn list_rows(
    alloc: Global,
    noted: &Noted,
    reached: &Found,
) -> Result<List<Row>, AllocError>
    requires lists { ListsMayBe noted.now.core.now noted.now.lists.now }
    requires reached { IsReach noted.now.core.now noted.now.entities.now reached.now }
    ensures order { IfOk result (λ rows. spec.InOrder rows) }
    ensures exact { IfOk result (λ rows. (e t : ℕ) → Has rows (spec.row e t) ↔ Sends noted.now.core.now noted.now.entities.now e t) }
{
    noted.core.formed();
    let mut rows = List::new(alloc);
    for entity in 0..noted.core.entities().len() as u32 {
        let targets = sent_by(alloc, noted, reached, entity)?;
        add_rows(entity, targets.as_slice(), &mut rows)?;
    }
    Ok(rows)
}
