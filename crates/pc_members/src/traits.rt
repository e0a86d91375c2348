//! The methods of each trait and interface of a file, including what it takes over.
ghost use Rattle.std.specs.Prelude.{◌≡◌, ◌++◌, ◌+◌, [], map, length, IfOk, OnOk};
ghost use Rattle.std.specs.Option.{option_copied};
ghost use Rattle.pc_tree.specs.View.{entity_view, file_view, method_view};
ghost use Rattle.pc_members.specs.Founded.{IsFounded};
ghost use Rattle.pc_members.specs.MemberLists.{with_names};
ghost use Rattle.pc_members.specs.Parts.{or_no_members, find_name};
ghost use Rattle.pc_members.specs.Members.{written, entity_names};
ghost use Rattle.pc_members.specs.Rounds as spec;
ghost use Rattle.pc_members.specs.Numbered.{maybe_numbered, numbered_table, numbered_view};

use crate::known::{Known, Numbered};
use crate::member::Member;
use crate::table::NameTable;
use pc_base::List;
use pc_tree::{Entity, FIRST_OWN, File, MethodDef, Name};
use std::alloc::{AllocError, Global};

// Appends those of these members whose names are new, the first with each name.
fn add_firsts<'a>(
    known: &mut Known,
    list: &mut List<Numbered<'a>>,
    members: &[Numbered<'a>],
) -> Result<(), AllocError>
    ensures list { OnOk result (numbered_view list.new ≡ numbered_view list.old ++ spec.first_members known.old (numbered_view members.now)) }
    ensures known { OnOk result (known.new ≡ with_names known.old (spec.member_texts (numbered_view members.now))) }
{
    for member in members {
        if !known.has(member) {
            known.add(member)?;
            list.push(*member)?;
        }
    }
    Ok(())
}

/// What the table has for the entity with this name.
pub(crate) fn named_at<'t, 'a>(
    entities: &NameTable,
    table: &'t [List<Numbered<'a>>],
    name: &Name,
) -> Option<&'t List<Numbered<'a>>>
    ensures { or_no_members (maybe_numbered (option_copied result)) ≡ spec.table_members (numbered_table table.now) (find_name entities.now name.now.text) }
{
    let number = entities.find(name.text.as_slice())?;
    table.get((number as usize).saturating_sub(FIRST_OWN as usize))
}

// The same for the members that the table has for the entity with this name.
fn add_named<'a>(
    entities: &NameTable,
    table: &[List<Numbered<'a>>],
    known: &mut Known,
    list: &mut List<Numbered<'a>>,
    name: &Name,
) -> Result<(), AllocError>
    ensures list { OnOk result (numbered_view list.new ≡ numbered_view list.old ++ spec.first_members known.old (spec.table_members (numbered_table table.now) (find_name entities.now name.now.text))) }
    ensures known { OnOk result (known.new ≡ with_names known.old (spec.member_texts (spec.table_members (numbered_table table.now) (find_name entities.now name.now.text)))) }
{
    match named_at(entities, table, name) {
        Some(members) => add_firsts(known, list, members.as_slice()),
        None => Ok(()),
    }
}

// The same for the members that the table has for the entities with these names.
#[tactic(auto, using(crate::proofs::Firsts::first_turn))]
fn add_all_named<'a>(
    entities: &NameTable,
    table: &[List<Numbered<'a>>],
    known: &mut Known,
    list: &mut List<Numbered<'a>>,
    provides: &[Name],
) -> Result<(), AllocError>
    ensures { OnOk result (numbered_view list.new ≡ numbered_view list.old ++ spec.first_members known.old (spec.named_all entities.now (numbered_table table.now) provides.now)) }
{
    for name in provides {
        add_named(entities, table, known, list, name)?;
    }
    Ok(())
}

// Appends these methods, each with the number of its name.
fn number_methods<'a>(
    known: &mut Known,
    list: &mut List<Numbered<'a>>,
    methods: &'a [MethodDef],
) -> Result<(), AllocError>
    ensures list { OnOk result (numbered_view list.new ≡ numbered_view list.old ++ map written (map method_view methods.now)) }
    ensures known { OnOk result (known.new ≡ known.old) }
{
    for method in methods {
        let number = known.number(method.name.text.as_slice())?;
        let member = Member::Written(method);
        list.push(Numbered { member, number })?;
    }
    Ok(())
}

// The same for the entity's own methods.
fn add_own_methods<'a>(
    alloc: Global,
    known: &mut Known,
    list: &mut List<Numbered<'a>>,
    entity: &'a Entity,
) -> Result<(), AllocError>
    ensures list { OnOk result (numbered_view list.new ≡ numbered_view list.old ++ spec.first_members known.old (map written (entity_view entity.now).methods)) }
    ensures known { OnOk result (known.new ≡ with_names known.old (spec.member_texts (map written (entity_view entity.now).methods))) }
{
    let mut own = List::new(alloc);
    number_methods(known, &mut own, entity.methods.as_slice())?;
    add_firsts(known, list, own.as_slice())
}

// The same for the entity's own methods, and then for the members that the table has for the entities that it names.
#[tactic(auto, using(crate::proofs::Firsts::first_parts))]
fn add_gathered<'a>(
    alloc: Global,
    entities: &NameTable,
    table: &[List<Numbered<'a>>],
    known: &mut Known,
    list: &mut List<Numbered<'a>>,
    entity: &'a Entity,
) -> Result<(), AllocError>
    requires none { numbered_view list.old ≡ [] }
    requires unknown { known.old ≡ [] }
    ensures { OnOk result (numbered_view list.new ≡ spec.gathered entities.now (numbered_table table.now) (entity_view entity.now)) }
{
    add_own_methods(alloc, known, list, entity)?;
    add_all_named(entities, table, known, list, entity.provides.as_slice())
}

// The methods of a trait or an interface: its own, and then those that the table has for what it names, the first with
// each name.
fn gather<'a>(
    alloc: Global,
    entities: &NameTable,
    table: &[List<Numbered<'a>>],
    known: &mut Known,
    entity: &'a Entity,
) -> Result<List<Numbered<'a>>, AllocError>
    ensures { IfOk result (λ l. numbered_view l ≡ spec.gathered entities.now (numbered_table table.now) (entity_view entity.now)) }
{
    let mut list = List::new(alloc);
    known.clear(alloc);
    add_gathered(alloc, entities, table, known, &mut list, entity).and(Ok(list))
}

/// How many entities are above the one at this place of the file.
pub fn rank_of(above: &[List<u32>], place: usize) -> usize
    ensures { result ≡ spec.rank above.now place }
{
    match above.get(place) {
        Some(numbers) => numbers.len(),
        None => 0,
    }
}

// A table without methods, with a place for each entity.
fn list_empty<'a>(alloc: Global, count: usize) -> Result<List<List<Numbered<'a>>>, AllocError>
    ensures { IfOk result (λ l. length l ≡ count) }
{
    let mut table = List::new(alloc);
    while table.len() < count {
        table.push(List::new(alloc))?;
    }
    Ok(table)
}

// If the entity at this place is a trait or an interface with this number of entities above it, puts its methods into
// the table.
fn reach_place<'a>(
    alloc: Global,
    file: &'a File,
    entities: &NameTable,
    above: &[List<u32>],
    table: &mut List<List<Numbered<'a>>>,
    known: &mut Known,
    rank: usize,
    place: usize,
) -> Result<(), AllocError>
    requires names { entities.now ≡ entity_names (file_view file.now) }
    requires closes { spec.ClosesOwn (file_view file.now) above.now }
    requires founded { IsFounded (file_view file.now) }
    requires knows { spec.Knows (file_view file.now) above.now rank place (numbered_table table.old) }
    ensures { OnOk result (spec.Knows (file_view file.now) above.now rank (place + 1) (numbered_table table.new)) }
{
    let Some(entity) = file.entities.get(place) else {
        return Ok(());
    };
    if entity.kind.is_abstract() && rank_of(above, place) == rank {
        let members = gather(alloc, entities, table.as_slice(), known, entity)?;
        table.replace(place, members);
    }
    Ok(())
}

// Puts the methods of the traits and interfaces with this number of entities above them into the table.
fn reach_rank<'a>(
    alloc: Global,
    file: &'a File,
    entities: &NameTable,
    above: &[List<u32>],
    table: &mut List<List<Numbered<'a>>>,
    known: &mut Known,
    rank: usize,
) -> Result<(), AllocError>
    requires names { entities.now ≡ entity_names (file_view file.now) }
    requires closes { spec.ClosesOwn (file_view file.now) above.now }
    requires founded { IsFounded (file_view file.now) }
    requires knows { spec.Knows (file_view file.now) above.now rank 0 (numbered_table table.old) }
    ensures { OnOk result (spec.Knows (file_view file.now) above.now (rank + 1) 0 (numbered_table table.new)) }
{
    for place in 0..file.entities.len() {
        reach_place(alloc, file, entities, above, table, known, rank, place)?;
    }
    Ok(())
}

/// For each entity of a file that is a trait or an interface, its methods with their bodies, given what is above each
/// entity of the file. Nothing is promised about the places of other entities. They are computed by the number of
/// entities above them, so that each comes after those that it names.
#[tactic(auto, using(crate::proofs::Rounding::knows_none))]
pub(crate) fn list_methods<'a>(
    alloc: Global,
    entities: &NameTable,
    above: &[List<u32>],
    file: &'a File,
) -> Result<List<List<Numbered<'a>>>, AllocError>
    requires names { entities.now ≡ entity_names (file_view file.now) }
    requires closes { spec.ClosesOwn (file_view file.now) above.now }
    requires founded { IsFounded (file_view file.now) }
    ensures { IfOk result (λ l. spec.Knows (file_view file.now) above.now (length file.now.entities) 0 (numbered_table l)) }
{
    let mut table = list_empty(alloc, file.entities.len())?;
    let mut known = Known::new(alloc, entities);
    for rank in 0..file.entities.len() {
        reach_rank(alloc, file, entities, above, &mut table, &mut known, rank)?;
    }
    Ok(table)
}
