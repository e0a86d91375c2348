//! The entities that an annotation notes at the nodes.
ghost use Rattle.std.specs.Prelude.{◌≡◌, length, map, IfOk};
ghost use Rattle.pc_valid.specs.Valid.{Valid};
ghost use Rattle.pc_sends.specs.Held.{Held};
ghost use Rattle.pc_noted_receivers.specs.Noted as spec;
ghost use Rattle.pc_noted_receivers.specs.Parts as parts;

use crate::laws::accepted_held;
use pc_ann::{Ann, Note};
use pc_base::List;
use pc_core::Core;
use std::alloc::{AllocError, Global};

// The entity of a note's type, if it has one.
fn noted_in(note: &Note) -> Option<u32>
    ensures { result ≡ parts.noted_in note.now }
{
    note.ty.map(|ty| ty.0)
}

// The entities of all notes.
fn all_noted(alloc: Global, notes: &[Note]) -> Result<List<Option<u32>>, AllocError>
    ensures { IfOk result (λ entities. entities ≡ map parts.noted_in notes.now) }
{
    let mut entities = List::new(alloc);
    for note in notes {
        entities.push(noted_in(note))?;
    }
    Ok(entities)
}

/// For each node, the entity of its noted type, or none if the note has no type. The annotation has to be valid.
///
/// # Errors
/// If memory runs out.
pub fn entities(alloc: Global, core: &Core, ann: &Ann) -> Result<List<Option<u32>>, AllocError>
    requires valid { Valid core.now ann.now }

    ensures noted { IfOk result (λ entities. entities ≡ spec.noted_entities ann.now) }
    ensures whole { IfOk result (λ entities. length entities ≡ length core.now.nodes) }

    // Over every list of actors, if an actor's next task is a call, the receiver's own entity is the noted one, or
    // conforms to it.
    ensures held { IfOk result (λ entities. Held core.now entities) }
{
    core.formed();
    accepted_held();
    all_noted(alloc, ann.notes.as_slice())
}
