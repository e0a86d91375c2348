//! The names of a file, or their first fault.
ghost use Rattle.std.specs.Prelude.{◌≡◌, ◌+◌, ◌<◌, ◌^◌, [], drop, length, IfOk, IfErr};
ghost use Rattle.pc_tree.specs.View.{file_view};
ghost use Rattle.pc_members.specs.Members.{IsTransitiveClosure, built_in_names, entity_names};
ghost use Rattle.pc_members.specs.Founded.{IsFounded};
ghost use Rattle.pc_members.specs.Edges.{edges_of, above_all};
ghost use Rattle.pc_tree.specs.Kinds.{first_own};
ghost use Rattle.pc_names.specs.Faults.{cycle_faults, declaration_faults, entity_name_faults, Collected, IsNameFault};
ghost use Rattle.pc_names.specs.Parts.{TellsFirst, above_faults, member_faults};

use crate::collected_names::Names;
use crate::counts::check_counts;
use crate::cycles::check_cycles;
use crate::declarations::check_entities;
use crate::entities::{table_entities, table_traits};
use crate::fault::NameFault;
use crate::mains::check_main;
use crate::texts::table_texts;
use pc_base::List;
use pc_member_counts::count_members;
use pc_members::{NameTable, close, list_edges, own_part};
use pc_tree::{FIRST_OWN, File};
use std::alloc::{AllocError, Global};

// Checks the declarations of a file whose entities have these names.
fn check_declarations(alloc: Global, entities: &NameTable, file: &File) -> Result<(), NameFault>
    requires { entities.now ≡ entity_names (file_view file.now) }
    ensures { TellsFirst result (declaration_faults (file_view file.now)) }
{
    let traits = table_traits(alloc, entities, file)?;
    check_entities(alloc, entities, &traits, file.entities.as_slice())
}

// For each entity of a file, those above it.
#[tactic(auto, using(crate::proofs::Passes::edges_few))]
fn list_above(
    alloc: Global,
    entities: &NameTable,
    file: &File,
) -> Result<List<List<u32>>, AllocError>
    requires names { entities.now ≡ entity_names (file_view file.now) }
    requires numbers { first_own + length file.now.entities < 2 ^ 32 }
    ensures { IfOk result (λ l. l ≡ above_all (edges_of (file_view file.now))) }
{
    let edges = list_edges(alloc, entities, file)?;
    close(alloc, edges.as_slice())
}

// No trait or interface of a file is above itself, given the entities above each.
#[tactic(auto, using(crate::proofs::Passes::own_lengths, crate::proofs::Passes::own_few))]
fn check_own_cycles(file: &File, above: &[List<u32>]) -> Result<(), NameFault>
    requires closes { IsTransitiveClosure (file_view file.now) above.now }
    requires numbers { first_own + length file.now.entities < 2 ^ 32 }
    ensures { TellsFirst result (cycle_faults first_own (file_view file.now).entities (drop first_own above.now)) }
{
    check_cycles(FIRST_OWN, file.entities.as_slice(), own_part(above))
}

// A file without a cycle does not have too many methods, and has a `Main`.
#[tactic(auto, using(crate::proofs::Firsts::is_first_on))]
fn check_members(
    alloc: Global,
    entities: &NameTable,
    above: &[List<u32>],
    file: &File,
) -> Result<(), NameFault>
    requires names { entities.now ≡ entity_names (file_view file.now) }
    requires closes { IsTransitiveClosure (file_view file.now) above.now }
    requires founded { IsFounded (file_view file.now) }
    ensures { TellsFirst result (member_faults (file_view file.now).entities) }
{
    let counts = count_members(alloc, entities, above, file)?;
    check_counts(file.entities.as_slice(), counts.as_slice())?;
    check_main(file.entities.as_slice())
}

// No cycle, not too many methods, and a `Main`, given the entities above each entity of a file whose names and
// declarations have no fault.
#[tactic(auto, using(crate::proofs::Firsts::is_first_on))]
fn check_above(
    alloc: Global,
    entities: &NameTable,
    above: &[List<u32>],
    file: &File,
) -> Result<(), NameFault>
    requires names { entities.now ≡ entity_names (file_view file.now) }
    requires closes { IsTransitiveClosure (file_view file.now) above.now }
    requires differ { entity_name_faults built_in_names (file_view file.now).entities ≡ [] }
    requires declared { declaration_faults (file_view file.now) ≡ [] }
    requires numbers { first_own + length file.now.entities < 2 ^ 32 }
    ensures { TellsFirst result (above_faults (file_view file.now).entities (drop first_own above.now)) }
{
    check_own_cycles(file, above)?;
    check_members(alloc, entities, above, file)
}

/// The names of a file. `Err` iff they have a fault, and then the first in this order: an entity's name that is already
/// taken, or the 1,001st entity; a fault of a declaration, entity by entity; the first trait from which a chain of `is`
/// leads back to it; the entity with which the file has more than 10,000 methods; and what `Main` lacks. Memory may run
/// out at any time.
pub fn collect(alloc: Global, file: &File) -> Result<Names, NameFault>
    ensures ok { IfOk result (λ n. Collected (file_view file.now) n) }
    ensures err { IfErr result (λ f. IsNameFault (file_view file.now) f) }
{
    let entities = table_entities(alloc, file)?;
    check_declarations(alloc, &entities, file)?;
    let above = list_above(alloc, &entities, file)?;
    check_above(alloc, &entities, above.as_slice(), file)?;
    let texts = table_texts(alloc, &entities, file)?;
    Ok(Names::of(entities, texts, above))
}
