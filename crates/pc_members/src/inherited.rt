//! The members of each entity of a file, including what it takes over.
ghost use Rattle.std.specs.Prelude.{◌≡◌, ◌≤◌, ◌++◌, map, drop, length, slice_get, IfOk, OnOk};
ghost use Rattle.pc_tree.specs.View.{entity_view, file_view};
ghost use Rattle.pc_members.specs.Members.{IsTransitiveClosure, entity_names};
ghost use Rattle.pc_members.specs.Founded.{IsFounded};
ghost use Rattle.pc_tree.specs.Kinds.{first_own};
ghost use Rattle.pc_members.specs.MemberLists.{members};
ghost use Rattle.pc_members.specs.Parts.{or_no_members, find_name};
ghost use Rattle.pc_members.specs.Rounds as spec;
ghost use Rattle.pc_members.specs.Numbered.{numbered_table, numbered_view};
ghost use Rattle.pc_members.specs.Views.{members_view, table_view};

use crate::known::Numbered;
use crate::member::{Member, own_members};
use crate::table::NameTable;
use crate::texts::own_names;
use crate::traits::{list_methods, named_at};
use pc_base::List;
use pc_tree::{Entity, EntityKind, FIRST_OWN, File, Name};
use std::alloc::{AllocError, Global};

// Appends those of these members that an entity of this kind takes over, the first with each name.
fn take<'a>(
    kind: EntityKind,
    known: &mut NameTable,
    list: &mut List<Member<'a>>,
    members: &[Numbered<'a>],
) -> Result<(), AllocError>
    ensures list { OnOk result (members_view list.new ≡ members_view list.old ++ spec.taken_members kind known.old (numbered_view members.now)) }
    ensures known { OnOk result (known.new ≡ spec.with_taken kind known.old (numbered_view members.now)) }
{
    for numbered in members {
        let member = numbered.member;
        if member.is_takable(kind) && !known.has(member.text()) {
            known.add(member.text())?;
            list.push(member)?;
        }
    }
    Ok(())
}

// The same for the members that the table has for the entity with this name.
fn take_named<'a>(
    kind: EntityKind,
    entities: &NameTable,
    table: &[List<Numbered<'a>>],
    known: &mut NameTable,
    list: &mut List<Member<'a>>,
    name: &Name,
) -> Result<(), AllocError>
    ensures list { OnOk result (members_view list.new ≡ members_view list.old ++ spec.taken_members kind known.old (spec.table_members (numbered_table table.now) (find_name entities.now name.now.text))) }
    ensures known { OnOk result
        (known.new ≡ spec.with_taken kind known.old (spec.table_members (numbered_table table.now) (find_name entities.now name.now.text))) }
{
    match named_at(entities, table, name) {
        Some(members) => take(kind, known, list, members.as_slice()),
        None => Ok(()),
    }
}

// The same for the members that the table has for the entities with these names.
#[tactic(auto, using(crate::proofs::Firsts::taken_turn))]
fn take_all_named<'a>(
    kind: EntityKind,
    entities: &NameTable,
    table: &[List<Numbered<'a>>],
    known: &mut NameTable,
    list: &mut List<Member<'a>>,
    provides: &[Name],
) -> Result<(), AllocError>
    ensures { OnOk result (members_view list.new ≡ members_view list.old ++ spec.taken_members kind known.old (spec.named_all entities.now (numbered_table table.now) provides.now)) }
{
    for name in provides {
        take_named(kind, entities, table, known, list, name)?;
    }
    Ok(())
}

// Appends to the entity's own members what it takes over.
fn take_over<'a>(
    alloc: Global,
    entities: &NameTable,
    table: &[List<Numbered<'a>>],
    list: &mut List<Member<'a>>,
    entity: &'a Entity,
) -> Result<(), AllocError>
    requires { members_view list.old ≡ spec.own_members (entity_view entity.now) }
    ensures { OnOk result (members_view list.new ≡ spec.concrete entities.now (numbered_table table.now) (entity_view entity.now)) }
{
    let mut known = own_names(alloc, entities, entity)?;
    take_all_named(
        entity.kind,
        entities,
        table,
        &mut known,
        list,
        entity.provides.as_slice(),
    )
}

// The members of a class, an actor or a primitive, if the table has the methods of the traits and interfaces.
fn concrete_members<'a>(
    alloc: Global,
    entities: &NameTable,
    table: &[List<Numbered<'a>>],
    entity: &'a Entity,
) -> Result<List<Member<'a>>, AllocError>
    ensures { IfOk result (λ l. members_view l ≡ spec.concrete entities.now (numbered_table table.now) (entity_view entity.now)) }
{
    let mut list = own_members(alloc, entity)?;
    take_over(alloc, entities, table, &mut list, entity).and(Ok(list))
}

// These members without bodies.
fn without_bodies<'a>(
    alloc: Global,
    members: &[Numbered<'a>],
) -> Result<List<Member<'a>>, AllocError>
    ensures { IfOk result (λ l. members_view l ≡ map spec.bodiless (numbered_view members.now)) }
{
    let mut list = List::new(alloc);
    for numbered in members {
        list.push(numbered.member.without_body())?;
    }
    Ok(list)
}

// The members of a trait or an interface, if the table has the methods of the one at this place.
fn abstract_members<'a>(
    alloc: Global,
    table: &[List<Numbered<'a>>],
    place: usize,
) -> Result<List<Member<'a>>, AllocError>
    ensures { IfOk result (λ l. members_view l ≡ map spec.bodiless (or_no_members (slice_get (numbered_table table.now) place))) }
{
    match table.get(place) {
        Some(members) => without_bodies(alloc, members.as_slice()),
        None => Ok(List::new(alloc)),
    }
}

// The members of the entity at this place, if the table has the methods of the traits and interfaces.
fn complete<'a>(
    alloc: Global,
    entities: &NameTable,
    table: &[List<Numbered<'a>>],
    place: usize,
    entity: &'a Entity,
) -> Result<List<Member<'a>>, AllocError>
    ensures { IfOk result (λ l. members_view l ≡ spec.completed entities.now (numbered_table table.now) place (entity_view entity.now)) }
{
    if entity.kind.is_abstract() {
        abstract_members(alloc, table, place)
    } else {
        concrete_members(alloc, entities, table, entity)
    }
}

// The same for each of these entities.
fn complete_all<'a>(
    alloc: Global,
    entities: &NameTable,
    table: &[List<Numbered<'a>>],
    all: &'a [Entity],
) -> Result<List<List<Member<'a>>>, AllocError>
    ensures { IfOk result (λ l. table_view l ≡ spec.completed_from entities.now (numbered_table table.now) 0 (map entity_view all.now)) }
{
    let mut lists = List::new(alloc);
    for place in 0..all.len() {
        let entity = &all[place];
        lists.push(complete(alloc, entities, table, place, entity)?)?;
    }
    Ok(lists)
}

/// The part of a list over all entities that belongs to those of the file.
pub fn own_part(lists: &[List<u32>]) -> &[List<u32>]
    requires { first_own ≤ length lists.now }
    ensures { result.now ≡ drop first_own lists.now }
{
    &lists[FIRST_OWN as usize..]
}

/// The members of each entity of a file, in order, given the names of all entities, the built-in ones first, and for
/// each the entities to which a chain of `is` leads. `Err` if memory runs out.
pub fn list_members<'a>(
    alloc: Global,
    entities: &NameTable,
    above: &[List<u32>],
    file: &'a File,
) -> Result<List<List<Member<'a>>>, AllocError>
    requires names { entities.now ≡ entity_names (file_view file.now) }
    requires closes { IsTransitiveClosure (file_view file.now) above.now }
    requires founded { IsFounded (file_view file.now) }
    ensures { IfOk result (λ l. table_view l ≡ map (members (file_view file.now).entities) (file_view file.now).entities) }
{
    let own = own_part(above);
    let table = list_methods(alloc, entities, own, file)?;
    complete_all(alloc, entities, table.as_slice(), file.entities.as_slice())
}
