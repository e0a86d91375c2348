//! The names of each entity, by their numbers.
ghost use Rattle.std.specs.Prelude.{◌≡◌, ◌++◌, map, IfOk, OnOk};
ghost use Rattle.pc_tree.specs.View.{entity_view};
ghost use Rattle.pc_members.specs.Parts.{added_text};
ghost use Rattle.pc_members.specs.Members as words;
ghost use Rattle.pc_member_counts.specs.Numbers as spec;

use crate::numbers::{number_fields, number_in, number_methods};
use pc_base::List;
use pc_members::{NameTable, has_added, number_names};
use pc_tree::Entity;
use std::alloc::{AllocError, Global};

/// The names of an entity, by their numbers among the names of a file's methods.
#[derive(Drop)]
pub(crate) struct Listing {
    /// Its methods, in order.
    pub(crate) methods: List<u32>,
    /// Its fields, and an added `create`. A name that no method has gets the number after the last one.
    pub(crate) others: List<u32>,
    /// The entities that its `is` list names, by their numbers among all entities.
    pub(crate) targets: List<u32>,
}

// Appends the number of an added `create`.
fn add_created(
    names: &NameTable,
    numbers: &mut List<u32>,
    entity: &Entity,
) -> Result<(), AllocError>
    ensures { OnOk result (numbers.new ≡ numbers.old ++ spec.numbers_in names.now (added_text (words.has_added (entity_view entity.now)))) }
{
    if has_added(entity) {
        numbers.push(number_in(names, b"create"))
    } else {
        Ok(())
    }
}

// The names of one entity.
fn list_entity(
    alloc: Global,
    entities: &NameTable,
    names: &NameTable,
    entity: &Entity,
) -> Result<Listing, AllocError>
    ensures { IfOk result (λ l. l ≡ spec.listing entities.now names.now (entity_view entity.now)) }
{
    let methods = number_methods(alloc, names, entity.methods.as_slice())?;
    let mut others = number_fields(alloc, names, entity.fields.as_slice())?;
    add_created(names, &mut others, entity)?;
    let targets = number_names(alloc, entities, entity.provides.as_slice())?;
    Ok(Listing {
        methods,
        others,
        targets,
    })
}

/// The names of each of these entities, given the names of all entities and those of their methods.
pub(crate) fn list_entities(
    alloc: Global,
    entities: &NameTable,
    names: &NameTable,
    all: &[Entity],
) -> Result<List<Listing>, AllocError>
    ensures { IfOk result (λ l. l ≡ map (spec.listing entities.now names.now) (map entity_view all.now)) }
{
    let mut listings = List::new(alloc);
    for entity in all {
        listings.push(list_entity(alloc, entities, names, entity)?)?;
    }
    Ok(listings)
}
