//! The types of the children, and the masks after them.
ghost use Rattle.std.specs.Prelude.{◌≡◌, slice_get};
ghost use Rattle.pc_rules.specs.Calls.{called as called_is};
ghost use Rattle.pc_rules.specs.Children.{type_at as type_is};
ghost use Rattle.pc_rules.specs.Parts as parts;
ghost use Rattle.pc_explain_conditions.specs.Conditions.{callee as callee_is, receiver_index as receiver_is};
ghost use Rattle.std.specs.Option.{option_copied};

use pc_ann::Note;
use pc_caps::Form;
use pc_core::{Core, Method};
use pc_masks::Mask;

/// The note of the child with this index.
pub(crate) fn note_at(children: &[Note], index: usize) -> Option<Note>
    ensures { result ≡ slice_get children.now index }
{
    children.get(index).copied()
}

/// The type of the child with this index, or none.
pub(crate) fn type_at(children: &[Note], index: usize) -> Option<(u32, Form)>
    ensures { result ≡ type_is children.now index }
{
    let note = note_at(children, index)?;
    note.ty
}

/// The index of a call's receiver.
pub(crate) fn receiver_index(children: &[Note]) -> usize
    ensures { result ≡ receiver_is children.now }
{
    children.len().saturating_sub(1)
}

// Whether a node with this note starts from these masks.
fn starts(note: Note, masks: (Mask, Mask)) -> bool
    ensures { result ≡ parts.starts note masks }
{
    note.live_before == masks.0 && note.set_before == masks.1
}

/// The masks after the children, evaluated one after the other from these masks on.
pub(crate) fn through_children(children: &[Note], masks: (Mask, Mask)) -> Option<(Mask, Mask)>
    ensures { result ≡ parts.through_notes children.now masks }
{
    let mut reached = masks;
    for note in children {
        if !starts(*note, reached) {
            return None;
        }
        reached = (note.live_after, note.set_after);
    }
    Some(reached)
}

// The number of the method with this name of the receiver's entity, with the receiver's type.
fn called(core: &Core, children: &[Note], name: u32) -> Option<((u32, Form), u32)>
    ensures { result ≡ called_is core.now children.now name }
{
    let origin = type_at(children, receiver_index(children))?;
    let method = core.method(origin.0, name)?;
    Some((origin, method))
}

/// The method with this name of the receiver's entity.
pub(crate) fn callee<'a>(core: &'a Core, children: &[Note], name: u32) -> Option<&'a Method>
    ensures { option_copied result ≡ callee_is core.now children.now name }
{
    let found = called(core, children, name)?;
    core.method_at(found.1)
}
