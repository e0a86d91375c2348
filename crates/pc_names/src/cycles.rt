//! Traits and interfaces that lead back to themselves.
ghost use Rattle.std.specs.Prelude.{◌≡◌, ◌&&◌, ◌+◌, ◌<◌, ◌^◌, map, length};
ghost use Rattle.pc_tree.specs.Kinds.{is_abstract};
ghost use Rattle.pc_tree.specs.View.{entity_view};
ghost use Rattle.pc_names.specs.Faults.{cycle_faults};
ghost use Rattle.pc_names.specs.Parts.{TellsFirst};
ghost use Rattle.pc_members.specs.Edges as reach;

use crate::fault::NameFault;
use pc_base::List;
use pc_tree::Entity;

// Whether the number is in the list.
fn has(numbers: &[u32], wanted: u32) -> bool
    ensures { result ≡ reach.has_number numbers.now wanted }
{
    for number in numbers {
        if *number == wanted {
            return true;
        }
    }
    false
}

// Whether the entity with this number is a trait or an interface that is among those above it.
fn is_in_cycle(entity: &Entity, above: &[u32], number: u32) -> bool
    ensures { result ≡ (is_abstract entity.now.kind && reach.has_number above.now number) }
{
    entity.kind.is_abstract() && has(above, number)
}

/// No trait or interface among these entities, of which the first has this number, is above itself.
pub(crate) fn check_cycles(
    first: u32,
    entities: &[Entity],
    above: &[List<u32>],
) -> Result<(), NameFault>
    requires lists { length above.now ≡ length entities.now }
    requires numbers { first + length entities.now < 2 ^ 32 }
    ensures { TellsFirst result (cycle_faults first (map entity_view entities.now) above.now) }
{
    for at in 0..entities.len() {
        let entity = &entities[at];
        let number = first + at as u32;
        if is_in_cycle(entity, above[at].as_slice(), number) {
            return Err(NameFault::Cycle(entity.name.span));
        }
    }
    Ok(())
}
