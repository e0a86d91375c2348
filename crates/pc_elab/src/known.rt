//! What the bodies of a file know of its entities.
ghost use Rattle.std.specs.Prelude.{◌≡◌, ◌++◌, ◌∷◌, [], ◌+◌, ◌<◌, ◌^◌, map, length, IfOk, OnOk};
ghost use Rattle.pc_tree.specs.View.{entity_view};
ghost use Rattle.pc_file_spec.specs.Cores as spec;
ghost use Rattle.pc_body_spec.specs.Parts.{cap_or as either_cap};
ghost use Rattle.pc_members.specs.Views.{members_view, table_view};
ghost use Rattle.pc_elab.specs.Rows as rows;

use pc_base::{List, ShortBytes};
use pc_caps::Cap;
use pc_members::Member;
use pc_resolve::{Constructor, Constructors, Known};
use pc_tree::{Entity, EntityKind};
use std::alloc::{AllocError, Global};

/// How many methods a program may have at most. No memory could hold more.
const MOST_METHODS: u32 = 4_294_967_295;

/// The capability that is written, or else the other.
pub(crate) fn cap_or(written: Option<Cap>, other: Cap) -> Cap
    ensures { result ≡ either_cap written other }
{
    match written {
        Some(cap) => cap,
        None => other,
    }
}

/// The capability of an entity's type if none is written: that of its declaration, for classes, traits and interfaces.
pub(crate) fn default_cap(kind: EntityKind, written: Option<Cap>) -> Cap
    ensures { result ≡ spec.default_cap kind written }
{
    match kind {
        EntityKind::Class | EntityKind::Trait | EntityKind::Interface => cap_or(written, Cap::Ref),
        EntityKind::Actor => Cap::Tag,
        EntityKind::Primitive => Cap::Val,
    }
}

/// The number after those of these members, of which the first has this number.
pub(crate) fn number_after(first: u32, members: &[Member]) -> Result<u32, AllocError>
    ensures { IfOk result (λ n. n ≡ first + length (members_view members.now)) }
{
    if members.len() > (MOST_METHODS - first) as usize {
        return Err(AllocError);
    }
    Ok(first + members.len() as u32)
}

// The constructors among these members, of which the first has this number among the methods.
fn list_constructors(
    alloc: Global,
    first: u32,
    members: &[Member],
) -> Result<List<Constructor>, AllocError>
    requires { first + length (members_view members.now) < 2 ^ 32 }
    ensures { IfOk result (λ l. l ≡ spec.constructors_from first (members_view members.now)) }
{
    let mut constructors = List::new(alloc);
    let mut number = first;
    for member in members {
        if member.is_constructor() {
            let name = ShortBytes::from_slice(alloc, member.text())?;
            constructors.push(Constructor::new(name, number))?;
        }
        number += 1;
    }
    Ok(constructors)
}

// What bodies know of an entity with these members, of which the first has this number among the methods.
fn make_known(
    alloc: Global,
    first: u32,
    entity: &Entity,
    members: &[Member],
) -> Result<Known, AllocError>
    requires { first + length (members_view members.now) < 2 ^ 32 }
    ensures { IfOk result (λ k. k ≡ rows.known_with first (entity_view entity.now) (members_view members.now)) }
{
    let name = ShortBytes::from_slice(alloc, entity.name.text.as_slice())?;
    let cap = default_cap(entity.kind, entity.cap);
    let constructors = Constructors::of(alloc, list_constructors(alloc, first, members)?)?;
    Ok(Known::new(name, entity.kind, cap, constructors))
}

// Appends a built-in entity, which has no constructor.
fn add_built_in(
    alloc: Global,
    known: &mut List<Known>,
    name: &[u8],
    kind: EntityKind,
    cap: Cap,
) -> Result<(), AllocError>
    ensures { OnOk result (known.new ≡ known.old ++ record { name = name.now; kind = kind; cap = cap; constructors = [] } ∷ []) }
{
    let name = ShortBytes::from_slice(alloc, name)?;
    known.push(Known::new(name, kind, cap, Constructors::new(alloc)))
}

// Adds the built-in entities to an empty list.
fn add_all_built_in(alloc: Global, known: &mut List<Known>) -> Result<(), AllocError>
    requires { known.old ≡ [] }
    ensures { OnOk result (known.new ≡ spec.built_in_known) }
{
    add_built_in(alloc, known, b"None", EntityKind::Primitive, Cap::Val)?;
    add_built_in(alloc, known, b"U64", EntityKind::Primitive, Cap::Val)?;
    add_built_in(alloc, known, b"Bool", EntityKind::Primitive, Cap::Val)?;
    add_built_in(alloc, known, b"String", EntityKind::Primitive, Cap::Val)?;
    add_built_in(alloc, known, b"Env", EntityKind::Class, Cap::Val)?;
    add_built_in(alloc, known, b"OutStream", EntityKind::Actor, Cap::Tag)
}

// Adds the built-in entities and those of the file, given the table of their members, to an empty list.
fn add_known(
    alloc: Global,
    known: &mut List<Known>,
    entities: &[Entity],
    table: &[List<Member>],
) -> Result<(), AllocError>
    requires rows { length table.now ≡ length entities.now }
    requires none { known.old ≡ [] }
    ensures { OnOk result (known.new ≡ spec.built_in_known ++ rows.known_rows 1 (map entity_view entities.now) (table_view table.now)) }
{
    add_all_built_in(alloc, known)?;
    let mut first = 1;
    for at in 0..entities.len() {
        let members = table[at].as_slice();
        let after = number_after(first, members)?;
        known.push(make_known(alloc, first, &entities[at], members)?)?;
        first = after;
    }
    Ok(())
}

/// The built-in entities, followed by those of the file, given the table of their members.
pub(crate) fn list_known(
    alloc: Global,
    entities: &[Entity],
    table: &[List<Member>],
) -> Result<List<Known>, AllocError>
    requires { length table.now ≡ length entities.now }
    ensures { IfOk result (λ l. l ≡ spec.built_in_known ++ rows.known_rows 1 (map entity_view entities.now) (table_view table.now)) }
{
    let mut known = List::new(alloc);
    add_known(alloc, &mut known, entities, table).and(Ok(known))
}
