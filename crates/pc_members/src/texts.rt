//! An entity's own names.
ghost use Rattle.std.specs.Prelude.{◌≡◌, [], ◌++◌, map, OnOk, IfOk};
ghost use Rattle.pc_tree.specs.View.{entity_view, field_view, method_view};
ghost use Rattle.pc_members.specs.Members.{own_texts, field_texts, method_texts};
ghost use Rattle.pc_members.specs.Parts.{added_text};
ghost use Rattle.pc_members.specs.Members as words;
ghost use Rattle.pc_members.specs.MemberLists.{with_names};

use crate::constructors::has_added;
use crate::table::NameTable;
use pc_tree::{Entity, FieldDef, MethodDef};
use std::alloc::{AllocError, Global};

// Appends the names of these fields, each once.
fn add_fields(table: &mut NameTable, fields: &[FieldDef]) -> Result<(), AllocError>
    ensures { OnOk result (table.new ≡ with_names table.old (field_texts (map field_view fields.now))) }
{
    for field in fields {
        table.add(field.name.text.as_slice())?;
    }
    Ok(())
}

/// Appends the names of these methods, each once. After an `Err` some of them are there.
pub fn add_methods(table: &mut NameTable, methods: &[MethodDef]) -> Result<(), AllocError>
    ensures { OnOk result (table.new ≡ with_names table.old (method_texts (map method_view methods.now))) }
{
    for method in methods {
        table.add(method.name.text.as_slice())?;
    }
    Ok(())
}

/// Appends the names of the entity's fields and methods, each once. After an `Err` some of them are there.
#[tactic(auto, using(crate::proofs::Tables::names_in_parts))]
pub fn add_texts(table: &mut NameTable, entity: &Entity) -> Result<(), AllocError>
    ensures { OnOk result (table.new ≡ with_names table.old (field_texts (entity_view entity.now).fields ++ method_texts (entity_view entity.now).methods)) }
{
    add_fields(table, entity.fields.as_slice())?;
    add_methods(table, entity.methods.as_slice())
}

// Appends the name of an added `create`, unless it is there already.
fn add_created(table: &mut NameTable, entity: &Entity) -> Result<(), AllocError>
    ensures { OnOk result (table.new ≡ with_names table.old (added_text (words.has_added (entity_view entity.now)))) }
{
    if has_added(entity) {
        table.add(b"create")
    } else {
        Ok(())
    }
}

// Adds the entity's own names, and no others.
fn add_own_texts(table: &mut NameTable, entity: &Entity) -> Result<(), AllocError>
    requires { table.old ≡ [] }
    ensures { OnOk result (table.new ≡ with_names [] (own_texts (entity_view entity.now))) }
{
    add_texts(table, entity)?;
    add_created(table, entity)
}

/// An entity's own names: those of its fields and methods, and of an added `create`. The key is that of the table of
/// all entities.
pub(crate) fn own_names(
    alloc: Global,
    entities: &NameTable,
    entity: &Entity,
) -> Result<NameTable, AllocError>
    ensures { IfOk result (λ n. n ≡ with_names [] (own_texts (entity_view entity.now))) }
{
    let mut known = entities.new_like(alloc);
    add_own_texts(&mut known, entity).and(Ok(known))
}
