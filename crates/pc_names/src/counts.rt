//! How many methods a file has.
ghost use Rattle.std.specs.Prelude.{◌≡◌, map, length};
ghost use Rattle.pc_tree.specs.View.{entity_view};
ghost use Rattle.pc_names.specs.Faults as spec;
ghost use Rattle.pc_names.specs.Parts as parts;
ghost use Rattle.pc_names.specs.Parts.{TellsFirst};

use crate::fault::{NameFault, Which};
use pc_base::METHOD_LIMIT;
use pc_tree::Entity;

// These entities, with these numbers of members, do not have more members than a file may have.
fn add_counts(all: &[Entity], counts: &[usize]) -> Result<(), NameFault>
    requires { length counts.now ≡ length all.now }
    ensures { TellsFirst result (parts.faults_by_count 0 (map entity_view all.now) counts.now) }
{
    let mut total = 0;
    for at in 0..all.len() {
        let entity = &all[at];
        let count = counts[at];
        if count > METHOD_LIMIT as usize - total {
            return Err(NameFault::TooMany(Which::Methods, entity.name.span));
        }
        total += count;
    }
    Ok(())
}

/// The entities of a file, with these numbers of members, do not have more methods than a file may have.
#[tactic(auto, using(crate::proofs::Counted::counts_alike, crate::proofs::Counted::counted))]
pub(crate) fn check_counts(all: &[Entity], counts: &[usize]) -> Result<(), NameFault>
    requires { counts.now ≡ map (parts.method_count (map entity_view all.now)) (map entity_view all.now) }
    ensures { TellsFirst result (spec.count_faults (map entity_view all.now) 0 (map entity_view all.now)) }
{
    add_counts(all, counts)
}
