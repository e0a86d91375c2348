//! The types of slots: the written ones, and those that follow from a definition.
ghost use Rattle.std.specs.Prelude.{◌≡◌, None, IfOk, length};
ghost use Rattle.pc_check.specs.Inference as spec;

use pc_ann::Ann;
use pc_caps::{Cap, Form, stored};
use pc_core::{Core, Node, Slot};
use pc_tree::NONE_ENTITY;
use std::alloc::{AllocError, Global};

// The written type of a slot, or an arbitrary one if none is written.
fn written_type(slot: &Slot) -> (u32, Cap)
    ensures { result ≡ spec.written_type slot.now.written }
{
    match slot.written {
        Some(ty) => ty,
        None => (NONE_ENTITY, Cap::Tag),
    }
}

/// A type for each slot: the written one, or an arbitrary one if none is written.
pub(crate) fn first_types(alloc: Global, core: &Core) -> Result<Vec<(u32, Cap)>, AllocError>
    ensures { IfOk result (λ types. types.items ≡ spec.first_types core.now) }
{
    core.slots()
        .iter()
        .map(|slot| written_type(slot))
        .collect(alloc)
}

// The type of an only child.
fn value_type(ann: &Ann, children: &[u32]) -> Option<(u32, Form)>
    ensures { result ≡ spec.unwritten ann.now children.now None }
{
    match children {
        [child] => {
            let note = ann.notes.get(*child as usize)?;
            note.ty
        }
        _ => None,
    }
}

// The type of the value of a definition, if no type is written for its slot.
fn unwritten(ann: &Ann, children: &[u32], written: Option<(u32, Cap)>) -> Option<(u32, Form)>
    ensures { result ≡ spec.unwritten ann.now children.now written }
{
    match written {
        Some(_) => None,
        None => value_type(ann, children),
    }
}

// The number of a slot whose type follows from its definition, and that type.
fn slot_type(core: &Core, ann: &Ann, node: &Node, slot: u32) -> Option<(usize, (u32, Cap))>
    ensures { result ≡ spec.inferred_slot_type core.now ann.now node.now slot }
{
    let method = core.method_at(node.method)?;
    let declared = core.slot_at(method, slot)?;
    let value = unwritten(ann, node.children.as_slice(), declared.written)?;
    Some((
        method.first_slot as usize + slot as usize,
        (value.0, stored(value.1)),
    ))
}

fn inferred_slot(core: &Core, ann: &Ann, node: &Node) -> Option<(usize, (u32, Cap))>
    ensures { result ≡ spec.inferred_slot core.now ann.now node.now node.now.kind }
{
    let slot = node.kind.defined_slot()?;
    slot_type(core, ann, node, slot)
}

/// If the node defines a slot without a written type, gives the slot the type that follows.
pub(crate) fn infer_slot(core: &Core, ann: &mut Ann, node: &Node)
    requires { length ann.old.slots ≡ length core.now.slots }
    ensures { ann.new ≡ spec.with_inferred core.now ann.old node.now }
{
    match inferred_slot(core, ann, node) {
        None => {}
        Some((place, ty)) => {
            ann.slots.replace(place, ty);
        }
    }
}
