//! What is computed for a file before its names are gone through.
ghost use Rattle.std.specs.Prelude.{◌≡◌, IfOk};
ghost use Rattle.pc_tree.specs.View.{file_view};
ghost use Rattle.pc_members.specs.Members.{entity_names};
ghost use Rattle.pc_member_counts.specs.Plans as spec;

use crate::listing::{Listing, list_entities};
use crate::numbers::table_names;
use crate::order::list_order;
use pc_base::List;
use pc_members::NameTable;
use pc_tree::File;
use std::alloc::{AllocError, Global};

/// The names of a file's methods, those of each entity by their numbers, and the places of the traits and interfaces,
/// each after those that it names.
#[derive(Drop)]
pub(crate) struct Plan {
    pub(crate) names: NameTable,
    pub(crate) listings: List<Listing>,
    pub(crate) order: List<usize>,
}

/// The plan for a file, given the names of all entities and what is above each entity of the file.
pub(crate) fn make_plan(
    alloc: Global,
    entities: &NameTable,
    above: &[List<u32>],
    file: &File,
) -> Result<Plan, AllocError>
    requires { entities.now ≡ entity_names (file_view file.now) }
    ensures { IfOk result (λ p. p ≡ spec.planned above.now (file_view file.now)) }
{
    let names = table_names(alloc, entities, file.entities.as_slice())?;
    let listings = list_entities(alloc, entities, &names, file.entities.as_slice())?;
    let order = list_order(alloc, above, file.entities.as_slice())?;
    Ok(Plan {
        names,
        listings,
        order,
    })
}
