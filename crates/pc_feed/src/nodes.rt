//! What is checked in addition to the rules: the counts, the types that are written for slots, and the fields after a
//! constructor.
ghost use Rattle.std.specs.Prelude.{◌≡◌, ◌↔◌, IsTrue, Some, length, slice_get};
ghost use Rattle.pc_judge.specs.Computed as computed;
ghost use Rattle.pc_feed.specs.Steps.{HasWritten, MayHave};

use pc_ann::Note;
use pc_caps::Cap;
use pc_core::{Core, Method, Slot};
use pc_rules::{constructs, full};

/// Whether these are the numbers of slots and of nodes.
pub fn has_counts(core: &Core, slots: u32, nodes: u32) -> bool
    ensures { IsTrue result ↔ ((slots ≡ length core.now.slots) × (nodes ≡ length core.now.nodes)) }
{
    slots as usize == core.slots().len() && nodes as usize == core.nodes().len()
}

// Whether this type is the one that is written for the slot, if one is.
fn has_written(slot: Slot, ty: (u32, Cap)) -> bool
    ensures { IsTrue result ↔ HasWritten slot ty }
{
    match slot.written {
        None => true,
        Some(written) => written == ty,
    }
}

/// Whether the slot with this number may have this type.
pub fn may_have(core: &Core, number: usize, ty: (u32, Cap)) -> bool
    ensures { IsTrue result ↔ MayHave core.now number ty }
{
    match core.slots().get(number) {
        None => true,
        Some(slot) => has_written(*slot, ty),
    }
}

// Whether the node with this number is the body.
fn ends(body: Option<u32>, number: u32) -> bool
    ensures { result ≡ computed.ends body number }
{
    match body {
        None => false,
        Some(last) => last == number,
    }
}

// Whether the method is a constructor with this body, and some field is not set after it.
fn unset_behind(core: &Core, number: u32, method: &Method, note: Note) -> bool
    ensures { result ≡ computed.unset_behind core.now number method.now note }
{
    constructs(method.kind)
        && (ends(method.body, number) && !full(core, method.entity, note.set_after))
}

/// Whether the node with this number, with this note, is the body of the method, a constructor, and some field is not
/// set after it.
pub fn leaves_unset(core: &Core, number: u32, method: u32, note: Note) -> bool
    ensures { result ≡ computed.unset_of core.now number (slice_get core.now.methods method) (Some note) }
{
    match core.method_at(method) {
        None => false,
        Some(found) => unset_behind(core, number, found, note),
    }
}
