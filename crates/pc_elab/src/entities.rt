//! The entities of a core.
ghost use Rattle.std.specs.Prelude.{◌≡◌, ◌++◌, [], ◌+◌, ◌<◌, ◌^◌, map, length, slice_get, IfOk, OnOk};
ghost use Rattle.pc_tree.specs.View.{entity_view, field_view};
ghost use Rattle.pc_members.specs.Edges.{entity_numbers};
ghost use Rattle.pc_tree.specs.Kinds.{first_own};
ghost use Rattle.pc_members.specs.Parts.{or_nil};
ghost use Rattle.pc_members.specs.Views.{table_view};
ghost use Rattle.pc_file_spec.specs.Cores as spec;
ghost use Rattle.pc_elab.specs.Rows as rows;

use crate::known::{default_cap, number_after};
use crate::language::add_built_ins;
use crate::signature::type_in;
use pc_base::List;
use pc_core::{EntityDef, FieldInfo};
use pc_members::Member;
use pc_names::Names;
use pc_resolve::Context;
use pc_tree::{Entity, FIRST_OWN, FieldDef, Name};
use std::alloc::{AllocError, Global};

fn field_of(context: &Context, field: &FieldDef) -> FieldInfo
    ensures { result ≡ spec.core_field context.now.texts context.now.entities (field_view field.now) }
{
    let (entity, cap) = type_in(context, &field.ty);
    FieldInfo {
        name: context.text_of(field.name.text.as_slice()),
        fixed: field.fixed,
        entity,
        cap,
    }
}

// Appends these fields.
fn add_fields(
    list: &mut List<FieldInfo>,
    context: &Context,
    fields: &[FieldDef],
) -> Result<(), AllocError>
    ensures { OnOk result (list.new ≡ list.old ++ map (spec.core_field context.now.texts context.now.entities) (map field_view fields.now)) }
{
    for field in fields {
        list.push_within(fields.len(), field_of(context, field))?;
    }
    Ok(())
}

// Appends the numbers of those of these names that are entities.
fn add_numbers(numbers: &mut List<u32>, names: &Names, provides: &[Name]) -> Result<(), AllocError>
    ensures { OnOk result (numbers.new ≡ numbers.old ++ entity_numbers names.now.entities provides.now) }
{
    for name in provides {
        match names.entity(name.text.as_slice()) {
            Some(number) => numbers.push(number)?,
            None => {}
        }
    }
    Ok(())
}

// The entities above the one with this number.
fn list_above(alloc: Global, names: &Names, number: u32) -> Result<List<u32>, AllocError>
    ensures { IfOk result (λ l. l ≡ or_nil (slice_get names.now.above number)) }
{
    match names.above(number) {
        Some(above) => List::from_slice(alloc, above),
        None => Ok(List::new(alloc)),
    }
}

// Adds what the entity names after `is`, and its fields, to two empty lists.
fn add_lists(
    numbers: &mut List<u32>,
    fields: &mut List<FieldInfo>,
    context: &Context,
    names: &Names,
    entity: &Entity,
) -> Result<(), AllocError>
    requires numbers { numbers.old ≡ [] }
    requires fields { fields.old ≡ [] }
    ensures numbers { OnOk result (numbers.new ≡ entity_numbers names.now.entities (entity_view entity.now).provides) }
    ensures fields { OnOk result (fields.new ≡ map (spec.core_field context.now.texts context.now.entities) (entity_view entity.now).fields) }
{
    add_numbers(numbers, names, entity.provides.as_slice())?;
    add_fields(fields, context, entity.fields.as_slice())
}

// The entity with this number, with this number of methods from this one on.
fn make_entity(
    alloc: Global,
    context: &Context,
    names: &Names,
    number: u32,
    first_method: u32,
    entity: &Entity,
    methods: u32,
) -> Result<EntityDef, AllocError>
    ensures { IfOk result (λ x. x ≡ rows.entity_with context.now names.now number first_method (entity_view entity.now) methods) }
{
    let name = List::from_slice(alloc, entity.name.text.as_slice())?;
    let above = list_above(alloc, names, number)?;
    let mut provides = List::new(alloc);
    let mut fields = List::new(alloc);
    add_lists(&mut provides, &mut fields, context, names, entity).and(Ok(EntityDef {
        kind: entity.kind,
        cap: default_cap(entity.kind, entity.cap),
        name,
        span: entity.name.span,
        provides,
        above,
        fields,
        first_method,
        methods,
    }))
}

// Adds the built-in entities and those of the file, given the table of their members, to an empty list.
fn add_entities(
    alloc: Global,
    list: &mut List<EntityDef>,
    context: &Context,
    names: &Names,
    entities: &[Entity],
    table: &[List<Member>],
) -> Result<(), AllocError>
    requires rows { length table.now ≡ length entities.now }
    requires numbers { first_own + length entities.now < 2 ^ 32 }
    requires none { list.old ≡ [] }
    ensures { OnOk result (list.new ≡ spec.built_ins ++ rows.entity_rows context.now names.now first_own 1 (map entity_view entities.now) (table_view table.now)) }
{
    add_built_ins(alloc, list)?;
    let mut first = 1;
    for at in 0..entities.len() {
        let after = number_after(first, table[at].as_slice())?;
        let number = (FIRST_OWN as usize + at) as u32;
        let entity = &entities[at];
        let made = make_entity(alloc, context, names, number, first, entity, after - first)?;
        list.push(made)?;
        first = after;
    }
    Ok(())
}

/// The entities of a program: the built-in ones, and then those of the file, given the table of their members.
pub(crate) fn list_entities(
    alloc: Global,
    context: &Context,
    names: &Names,
    entities: &[Entity],
    table: &[List<Member>],
) -> Result<List<EntityDef>, AllocError>
    requires rows { length table.now ≡ length entities.now }
    requires numbers { first_own + length entities.now < 2 ^ 32 }
    ensures { IfOk result (λ l. l ≡ spec.built_ins ++ rows.entity_rows context.now names.now first_own 1 (map entity_view entities.now) (table_view table.now)) }
{
    let mut list = List::new(alloc);
    add_entities(alloc, &mut list, context, names, entities, table).and(Ok(list))
}
