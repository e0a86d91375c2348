//! `sends SRC`: the text of who sends what.
ghost use Rattle.std.specs.Prelude.{IfOk};
ghost use Rattle.pc_valid.specs.Valid.{Valid};
ghost use Rattle.pc_commands.specs.Sends.{IsSendsText};

use crate::sent_lines::write_table;
use pc_ann::Ann;
use pc_base::List;
use pc_core::Core;
use pc_noted_receivers::entities;
use pc_sends::sends;
use std::alloc::{AllocError, Global};

/// The text of who sends what in a core, made with its valid annotation. The one error is that memory ran out.
pub fn write_sends(alloc: Global, core: &Core, ann: &Ann) -> Result<List<u8>, AllocError>
    requires { Valid core.now ann.now }
    ensures { IfOk result (IsSendsText core.now ann.now) }
{
    let noted = entities(alloc, core, ann)?;
    let table = sends(alloc, core, noted.as_slice())?;
    write_table(alloc, core, &table)
}
