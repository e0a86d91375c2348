//! The numbers of the entities.
ghost use Rattle.std.specs.Prelude.{◌≡◌, ◌++◌, ◌≤◌, [], map, length, take, IfOk, OnOk};
ghost use Rattle.pc_tree.specs.View.{entity_view, file_view};
ghost use Rattle.pc_names.specs.Faults.{entity_name_faults};
ghost use Rattle.pc_names.specs.Parts.{TellsFirst, known_limit};
ghost use Rattle.pc_members.specs.MemberLists.{trait_names, with_traits};
ghost use Rattle.pc_members.specs.Members.{built_in_names, entity_names, texts_of};

use crate::fault::{NameFault, Which};
use pc_base::ENTITY_LIMIT;
use pc_keyed::keyed_by_names;
use pc_members::NameTable;
use pc_tree::{Entity, FIRST_OWN, File};
use std::alloc::{AllocError, Global};

/// How many entities there may be, including the built-in ones.
const KNOWN_LIMIT: u32 = FIRST_OWN + ENTITY_LIMIT;

// Adds the names of the built-in entities to a table without names.
fn add_built_in(table: &mut NameTable) -> Result<(), AllocError>
    requires { table.old ≡ [] }
    ensures { OnOk result (table.new ≡ built_in_names) }
{
    add_first_built_in(table)?;
    add_last_built_in(table)
}

// Adds the first three of them.
fn add_first_built_in(table: &mut NameTable) -> Result<(), AllocError>
    requires { table.old ≡ [] }
    ensures { OnOk result (table.new ≡ take 3 built_in_names) }
{
    table.add(b"None")?;
    table.add(b"U64")?;
    table.add(b"Bool")
}

// Adds the last three of them.
fn add_last_built_in(table: &mut NameTable) -> Result<(), AllocError>
    requires { table.old ≡ take 3 built_in_names }
    ensures { OnOk result (table.new ≡ built_in_names) }
{
    table.add(b"String")?;
    table.add(b"Env")?;
    table.add(b"OutStream")
}

// Appends the names of these entities.
fn add_entities(table: &mut NameTable, entities: &[Entity]) -> Result<(), NameFault>
    requires { length table.old ≤ known_limit }
    ensures tells { TellsFirst result (entity_name_faults table.old (map entity_view entities.now)) }
    ensures names { OnOk result (table.new ≡ table.old ++ texts_of (map entity_view entities.now)) }
{
    for entity in entities {
        let name = &entity.name;
        if table.has(name.text.as_slice()) {
            return Err(NameFault::Double(name.span));
        }
        if table.len() >= KNOWN_LIMIT {
            return Err(NameFault::TooMany(Which::Entities, name.span));
        }
        table.add(name.text.as_slice())?;
    }
    Ok(())
}

// Adds the names of all entities, the built-in ones first, to a table without names.
fn add_all(table: &mut NameTable, entities: &[Entity]) -> Result<(), NameFault>
    requires { table.old ≡ [] }
    ensures tells { TellsFirst result (entity_name_faults built_in_names (map entity_view entities.now)) }
    ensures names { OnOk result (table.new ≡ built_in_names ++ texts_of (map entity_view entities.now)) }
{
    add_built_in(table)?;
    add_entities(table, entities)
}

/// The names of all entities of a file in the order of their numbers, the built-in ones first. The key is made of all
/// names of the file.
pub(crate) fn table_entities(alloc: Global, file: &File) -> Result<NameTable, NameFault>
    ensures tells { TellsFirst result (entity_name_faults built_in_names (file_view file.now).entities) }
    ensures names { IfOk result (λ t. t ≡ entity_names (file_view file.now)) }
{
    let mut table = NameTable::new(alloc, keyed_by_names(file));
    add_all(&mut table, file.entities.as_slice())?;
    Ok(table)
}

// Appends the names of the traits and interfaces among these entities.
fn add_traits(table: &mut NameTable, entities: &[Entity]) -> Result<(), AllocError>
    ensures { OnOk result (table.new ≡ with_traits table.old (map entity_view entities.now)) }
{
    for entity in entities {
        if entity.kind.is_abstract() {
            table.add(entity.name.text.as_slice())?;
        }
    }
    Ok(())
}

/// The names of the traits and interfaces of a file. The key is that of the table of all entities.
pub(crate) fn table_traits(
    alloc: Global,
    entities: &NameTable,
    file: &File,
) -> Result<NameTable, AllocError>
    ensures { IfOk result (λ t. t ≡ trait_names (file_view file.now).entities) }
{
    let mut table = entities.new_like(alloc);
    add_traits(&mut table, file.entities.as_slice())?;
    Ok(table)
}
