//! The `is` lists, as edges between the numbers of entities.
ghost use Rattle.std.specs.Prelude.{◌≡◌, ◌++◌, [], map, replicate, IfOk, OnOk};
ghost use Rattle.pc_tree.specs.Kinds.{first_own};
ghost use Rattle.pc_tree.specs.View.{entity_view, file_view};
ghost use Rattle.pc_members.specs.Edges as spec;
ghost use Rattle.pc_members.specs.Members.{entity_names};

use crate::table::NameTable;
use pc_base::List;
use pc_tree::{Entity, FIRST_OWN, File, Name};
use std::alloc::{AllocError, Global};

/// The numbers of those of these names that are entities.
pub fn number_names(
    alloc: Global,
    entities: &NameTable,
    names: &[Name],
) -> Result<List<u32>, AllocError>
    ensures { IfOk result (λ l. l ≡ spec.entity_numbers entities.now names.now) }
{
    let mut numbers = List::new(alloc);
    for name in names {
        match entities.find(name.text.as_slice()) {
            Some(number) => numbers.push(number)?,
            None => {}
        }
    }
    Ok(numbers)
}

// The built-in entities, which have no `is` list.
fn add_built_in(alloc: Global, edges: &mut List<List<u32>>) -> Result<(), AllocError>
    requires { edges.old ≡ [] }
    ensures { OnOk result (edges.new ≡ replicate first_own []) }
{
    while edges.len() < FIRST_OWN as usize {
        edges.push(List::new(alloc))?;
    }
    Ok(())
}

// Appends the edges of these entities.
fn add_edges(
    alloc: Global,
    entities: &NameTable,
    edges: &mut List<List<u32>>,
    all: &[Entity],
) -> Result<(), AllocError>
    ensures { OnOk result (edges.new ≡ edges.old ++ spec.own_edges entities.now (map entity_view all.now)) }
{
    for entity in all {
        edges.push(number_names(alloc, entities, entity.provides.as_slice())?)?;
    }
    Ok(())
}

// The edges of the built-in entities, followed by those of these entities.
fn add_all_edges(
    alloc: Global,
    entities: &NameTable,
    edges: &mut List<List<u32>>,
    all: &[Entity],
) -> Result<(), AllocError>
    requires { edges.old ≡ [] }
    ensures { OnOk result (edges.new ≡ replicate first_own [] ++ spec.own_edges entities.now (map entity_view all.now)) }
{
    add_built_in(alloc, edges)?;
    add_edges(alloc, entities, edges, all)
}

/// For each entity of a file, those that its `is` list names.
pub fn list_edges(
    alloc: Global,
    entities: &NameTable,
    file: &File,
) -> Result<List<List<u32>>, AllocError>
    requires { entities.now ≡ entity_names (file_view file.now) }
    ensures { IfOk result (λ l. l ≡ spec.edges_of (file_view file.now)) }
{
    let mut edges = List::new(alloc);
    add_all_edges(alloc, entities, &mut edges, file.entities.as_slice()).and(Ok(edges))
}
