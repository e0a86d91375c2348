//! The texts of a file that are not entities' names.
ghost use Rattle.std.specs.Prelude.{◌≡◌, [], map, OnOk, IfOk};
ghost use Rattle.pc_tree.specs.View.{entity_view, file_view};
ghost use Rattle.pc_members.specs.MemberLists.{with_names};
ghost use Rattle.pc_names.specs.Faults as spec;
ghost use Rattle.pc_names.specs.Parts as parts;

use pc_members::{NameTable, add_texts};
use pc_tree::{Entity, File};
use std::alloc::{AllocError, Global};

// Appends the names that every program has.
fn add_built_in(table: &mut NameTable) -> Result<(), AllocError>
    ensures { OnOk result (table.new ≡ with_names table.old spec.built_in_texts) }
{
    table.add(b"out")?;
    table.add(b"print")?;
    table.add(b"create")
}

/// Appends the names of the fields and methods of these entities, each once. After an `Err` some of them are there.
pub fn add_member_texts(table: &mut NameTable, entities: &[Entity]) -> Result<(), AllocError>
    ensures { OnOk result (table.new ≡ spec.with_members table.old (map entity_view entities.now)) }
{
    for entity in entities {
        add_texts(table, entity)?;
    }
    Ok(())
}

// Adds the names that every program has, and those of these entities' fields and methods, to a table without names.
fn add_all(table: &mut NameTable, entities: &[Entity]) -> Result<(), AllocError>
    requires { table.old ≡ [] }
    ensures { OnOk result (table.new ≡ parts.built_in_and_member_texts (map entity_view entities.now)) }
{
    add_built_in(table)?;
    add_member_texts(table, entities)
}

/// The texts of a file that are not entities' names. The key is that of the table of all entities.
pub(crate) fn table_texts(
    alloc: Global,
    entities: &NameTable,
    file: &File,
) -> Result<NameTable, AllocError>
    ensures { IfOk result (λ t. t ≡ parts.built_in_and_member_texts (file_view file.now).entities) }
{
    let mut table = entities.new_like(alloc);
    add_all(&mut table, file.entities.as_slice())?;
    Ok(table)
}
