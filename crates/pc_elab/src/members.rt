//! The parts of a program, entity by entity.
ghost use Rattle.std.specs.Prelude.{◌≡◌, ◌+◌, ◌<◌, ◌^◌, map, length, IfOk, OnOk};
ghost use Rattle.pc_tree.specs.View.{entity_view, field_view};
ghost use Rattle.pc_tree.specs.Kinds.{first_own};
ghost use Rattle.pc_members.specs.Members.{field_texts, member_text};
ghost use Rattle.pc_members.specs.Views.{member_view, members_view, table_view};
ghost use Rattle.pc_file_spec.specs.Cores.{owned, placed_of as placed_in};
ghost use Rattle.pc_elab.specs.Outcomes as spec;
ghost use Rattle.pc_elab.specs.Views.{parts_view};

use crate::parts::{Parts, add_member};
use crate::slots::{locals_of, placed_of};
use pc_base::{List, ShortBytes};
use pc_members::Member;
use pc_names::NameFault;
use pc_resolve::Context;
use pc_tree::{Entity, FIRST_OWN, FieldDef};
use std::alloc::{AllocError, Global};

fn list_field_names(alloc: Global, fields: &[FieldDef]) -> Result<List<ShortBytes>, AllocError>
    ensures { IfOk result (λ l. l ≡ field_texts (map field_view fields.now)) }
{
    let mut names = List::new(alloc);
    for field in fields {
        names.push(ShortBytes::from_slice(alloc, field.name.text.as_slice())?)?;
    }
    Ok(names)
}

fn list_member_names(alloc: Global, members: &[Member]) -> Result<List<ShortBytes>, AllocError>
    ensures { IfOk result (λ l. l ≡ map member_text (members_view members.now)) }
{
    let mut names = List::new(alloc);
    for member in members {
        names.push(ShortBytes::from_slice(alloc, member.text())?)?;
    }
    Ok(names)
}

// Appends a member of the entity with this number, or reports its first fault.
fn add_one(
    alloc: Global,
    context: &mut Context,
    parts: &mut Parts,
    number: u32,
    entity: &Entity,
    member: Member,
) -> Result<(), NameFault>
    ensures grows { spec.Grows result (parts_view parts.new) (spec.own_member context.old (parts_view parts.old) (owned number (entity_view entity.now) (member_view member.entry))) }
    ensures context { OnOk result (context.new ≡ spec.with_slots context.old (placed_in (entity_view entity.now) (member_view member.entry))) }
{
    let locals = locals_of(alloc, entity, member)?;
    let locals = locals.as_slice();
    context.set_slots(placed_of(alloc, member, locals)?);
    add_member(alloc, context, parts, number, entity, member, locals)
}

// Appends the members of the entity with this number, up to the first with a fault, which is reported.
fn add_members(
    alloc: Global,
    context: &mut Context,
    parts: &mut Parts,
    number: u32,
    entity: &Entity,
    members: &[Member],
) -> Result<(), NameFault>
    ensures grows { spec.Grows result (parts_view parts.new) (spec.own_members context.old (parts_view parts.old) (map (owned number (entity_view entity.now)) (members_view members.now))) }
    ensures context { OnOk result (context.new ≡ spec.with_slots context.old context.new.slots) }
{
    for member in members {
        add_one(alloc, context, parts, number, entity, *member)?;
    }
    Ok(())
}

// The same for an entity, whose fields and members are put into the context.
fn add_entity(
    alloc: Global,
    context: &mut Context,
    parts: &mut Parts,
    number: u32,
    entity: &Entity,
    members: &[Member],
) -> Result<(), NameFault>
    ensures grows { spec.Grows result (parts_view parts.new) (spec.entity_members context.old (parts_view parts.old) number (entity_view entity.now) (members_view members.now)) }
    ensures entities { OnOk result (context.new.entities ≡ context.old.entities) }
    ensures texts { OnOk result (context.new.texts ≡ context.old.texts) }
{
    let fields = list_field_names(alloc, entity.fields.as_slice())?;
    let methods = list_member_names(alloc, members)?;
    context.set_members(alloc, fields, methods)?;
    add_members(alloc, context, parts, number, entity, members)
}

/// Appends the members of these entities of a file to the built-in parts, or reports the first fault: that of the first
/// member with one. The table has the members of each entity.
pub(crate) fn add_entities(
    alloc: Global,
    context: &mut Context,
    parts: &mut Parts,
    entities: &[Entity],
    table: &[List<Member>],
) -> Result<(), NameFault>
    requires rows { length table.now ≡ length entities.now }
    requires numbers { first_own + length entities.now < 2 ^ 32 }
    ensures grows { spec.Grows result (parts_view parts.new) (spec.row_members context.old (parts_view parts.old) first_own (map entity_view entities.now) (table_view table.now)) }
    ensures entities { OnOk result (context.new.entities ≡ context.old.entities) }
    ensures texts { OnOk result (context.new.texts ≡ context.old.texts) }
{
    for at in 0..entities.len() {
        let number = (FIRST_OWN as usize + at) as u32;
        let members = table[at].as_slice();
        add_entity(alloc, context, parts, number, &entities[at], members)?;
    }
    Ok(())
}
