//! The traits and interfaces of a file, each after those that it names.
ghost use Rattle.std.specs.Prelude.{◌≡◌, ◌++◌, map, OnOk, IfOk};
ghost use Rattle.pc_tree.specs.View.{entity_view};
ghost use Rattle.pc_member_counts.specs.Orders as spec;

use pc_base::List;
use pc_members::rank_of;
use pc_tree::Entity;
use std::alloc::{AllocError, Global};

// Whether the entity at this place is a trait or an interface with `rank` entities above it.
fn is_of_rank(above: &[List<u32>], rank: usize, place: usize, entity: &Entity) -> bool
    ensures { result ≡ spec.is_of_rank above.now rank place (entity_view entity.now) }
{
    entity.kind.is_abstract() && rank_of(above, place) == rank
}

// Appends the places of the traits and interfaces with this number of entities above them.
fn add_rank(
    above: &[List<u32>],
    all: &[Entity],
    order: &mut List<usize>,
    rank: usize,
) -> Result<(), AllocError>
    ensures { OnOk result (order.new ≡ order.old ++ spec.of_rank above.now rank 0 (map entity_view all.now)) }
{
    for place in 0..all.len() {
        let entity = &all[place];
        if is_of_rank(above, rank, place, entity) {
            order.push(place)?;
        }
    }
    Ok(())
}

/// The places of the traits and interfaces among these entities, ordered by the number of entities above them.
pub(crate) fn list_order(
    alloc: Global,
    above: &[List<u32>],
    all: &[Entity],
) -> Result<List<usize>, AllocError>
    ensures { IfOk result (λ l. l ≡ spec.ordered above.now (map entity_view all.now)) }
{
    let mut order = List::new(alloc);
    for rank in 0..all.len() {
        add_rank(above, all, &mut order, rank)?;
    }
    Ok(order)
}
