//! The table of who sends what, as lines with names.
ghost use Rattle.std.specs.Prelude.{◌≡◌, ◌++◌, IfOk, OnOk};
ghost use Rattle.pc_commands.specs.Sends as spec;
ghost use Rattle.pc_commands.specs.SendsLines as lines;

use pc_base::List;
use pc_core::Core;
use pc_run_events::{push_entity, push_method};
use pc_sends::{Row, Table};
use std::alloc::{AllocError, Global};

// Appends these words, a method and a line end to a text.
fn push_line(text: &mut Vec<u8>, words: &[u8], core: &Core, method: u32) -> Result<(), AllocError>
    ensures { OnOk result (text.new.items ≡ text.old.items ++ spec.line_with words.now core.now method) }
{
    text.extend_from_slice(words)?;
    push_method(text, core, method)?;
    text.push(b'\n')?;
    Ok(())
}

// Appends the line of a row to a text.
fn push_row(text: &mut Vec<u8>, core: &Core, row: Row) -> Result<(), AllocError>
    ensures { OnOk result (text.new.items ≡ text.old.items ++ spec.row_line core.now row) }
{
    push_entity(text, core, row.from)?;
    push_line(text, b" sends ", core, row.target)
}

// Appends the lines of rows to a text.
fn push_rows(text: &mut Vec<u8>, core: &Core, rows: &[Row]) -> Result<(), AllocError>
    ensures { OnOk result (text.new.items ≡ text.old.items ++ lines.rows_text core.now rows.now) }
{
    for row in rows {
        push_row(text, core, *row)?;
    }
    Ok(())
}

// Appends the lines of what is never sent to a text.
fn push_never(text: &mut Vec<u8>, core: &Core, methods: &[u32]) -> Result<(), AllocError>
    ensures { OnOk result (text.new.items ≡ text.old.items ++ lines.never_text core.now methods.now) }
{
    for method in methods {
        push_line(text, b"never ", core, *method)?;
    }
    Ok(())
}

/// The lines of a table: `A sends B.m` for each row, and then `never B.m` for each method that is never sent.
pub fn write_table(alloc: Global, core: &Core, table: &Table) -> Result<List<u8>, AllocError>
    ensures { IfOk result (λ text. text ≡ spec.table_text core.now table.now) }
{
    let mut text = Vec::new(alloc);
    push_rows(&mut text, core, table.rows.as_slice())?;
    push_never(&mut text, core, table.never.as_slice())?;
    Ok(List::from_vec(text))
}
