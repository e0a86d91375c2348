//! Writing the derivation text.
ghost use Rattle.std.specs.Prelude.{◌≡◌, ◌≤◌, ◌++◌, length, Some, IsTrue, IfOk, OnOk};
ghost use Rattle.pc_ann.specs.declared.annotation.Note.{Note};
ghost use Rattle.std.specs.List.{AllByRecursion};
ghost use Rattle.pc_deriv.specs.Text as text;
ghost use Rattle.pc_deriv.specs.Parts as parts;
ghost use Rattle.pc_deriv.specs.declared.version.Version.TheVariants as version;
ghost use Rattle.pc_deriv.specs.Text.{IsText};
ghost use Rattle.pc_deriv.specs.Parts.{derivation_slot_limit, derivation_node_limit};

use crate::number_writing::{push_decimal, push_hex};
use crate::version::{Version, shown_after};
use crate::vocabulary::{rule_name, version_name};
use pc_ann::{Ann, Note};
use pc_base::List;
use pc_caps::{Cap, Form, cap_name, form_name};
use pc_masks::Mask;
use std::alloc::{AllocError, Global};

/// Appends the first line.
fn push_head(
    alloc: Global,
    out: &mut Vec<u8>,
    version: Version,
    slots: usize,
    nodes: usize,
) -> Result<(), AllocError>
    ensures { OnOk result (out.new.items ≡ out.old.items ++ text.head_line version (slots, nodes)) }
{
    let version = version_name(version);
    let line = format!(in alloc; "rcap-derivation {version} {slots} {nodes}\n")?;
    out.extend_from_slice(line.as_bytes())
}

/// Appends the line of a slot.
fn push_slot(out: &mut Vec<u8>, slot: (u32, Cap)) -> Result<(), AllocError>
    ensures puts { OnOk result (out.new.items ≡ out.old.items ++ text.slot_line slot) }
    ensures fits { text.SlotFits slot }
{
    let (entity, cap) = slot;
    out.extend_from_slice(b"s ")?;
    push_decimal(out, entity)?;
    out.push(b' ')?;
    out.extend_from_slice(cap_name(cap).as_bytes())?;
    out.push(b'\n')?;
    Ok(())
}

/// Appends the type of a node.
fn push_type(out: &mut Vec<u8>, ty: Option<(u32, Form)>) -> Result<(), AllocError>
    ensures puts { OnOk result (out.new.items ≡ out.old.items ++ text.type_text ty) }
    ensures fits { text.TypeFits ty }
{
    match ty {
        None => {
            out.push(b'-')?;
            Ok(())
        }
        Some((entity, form)) => {
            push_decimal(out, entity)?;
            out.push(b' ')?;
            out.extend_from_slice(form_name(form).as_bytes())
        }
    }
}

/// Appends a mask, after a blank.
fn push_mask(out: &mut Vec<u8>, mask: Mask) -> Result<(), AllocError>
    ensures { OnOk result (out.new.items ≡ out.old.items ++ (parts.blank ++ text.mask_text mask)) }
{
    out.push(b' ')?;
    push_hex(out, mask.0)
}

/// Appends a live and a set mask, each after a blank.
fn push_pair(out: &mut Vec<u8>, live: Mask, set: Mask) -> Result<(), AllocError>
    ensures { OnOk result (out.new.items ≡ out.old.items ++ (parts.blank ++ (text.mask_text live ++ (parts.blank ++ text.mask_text set)))) }
{
    push_mask(out, live)?;
    push_mask(out, set)
}

/// Appends the masks of a node.
fn push_masks(out: &mut Vec<u8>, version: Version, note: &Note) -> Result<(), AllocError>
    ensures { OnOk result (out.new.items ≡ out.old.items ++ text.masks_text version note.now) }
{
    let live_shown = shown_after(version, note.live_before, note.live_after);
    let set_shown = shown_after(version, note.set_before, note.set_after);
    push_pair(out, note.live_before, note.set_before)?;
    push_pair(out, live_shown, set_shown)?;
    out.push(b'\n')?;
    Ok(())
}

/// Whether two nodes have the same masks.
fn has_masks_of(note: &Note, other: &Note) -> bool
    ensures { IsTrue result → (note.now.live_before ≡ other.now.live_before) × (note.now.set_before ≡ other.now.set_before)
        × (note.now.live_after ≡ other.now.live_after) × (note.now.set_after ≡ other.now.set_after) }
{
    note.live_before.0 == other.live_before.0
        && note.set_before.0 == other.set_before.0
        && note.live_after.0 == other.live_after.0
        && note.set_after.0 == other.set_after.0
}

/// Updates the text of the masks of the node before to that of a node's own. Most nodes change no mask.
#[tactic(auto, using(crate::proofs::MaskTexts::same_masks))]
fn renew_masks(
    masks: &mut Vec<u8>,
    version: Version,
    before: Option<Note>,
    note: &Note,
) -> Result<(), AllocError>
    requires { (other : Note) → before ≡ Some other → masks.old.items ≡ text.masks_text version other }
    ensures { OnOk result (masks.new.items ≡ text.masks_text version note.now) }
{
    if let Some(other) = before {
        if has_masks_of(&other, note) {
            return Ok(());
        }
    }
    masks.clear();
    push_masks(masks, version, note)
}

/// Masks are below 2^64.
fn show_masks_fit(note: Note)
    ensures { text.MasksFit note }
{
    let _live_before = note.live_before.0;
    let _set_before = note.set_before.0;
    let _live_after = note.live_after.0;
    let _set_after = note.set_after.0;
}

/// Appends the line of a node whose masks have this text.
fn push_note(
    out: &mut Vec<u8>,
    version: Version,
    note: Note,
    masks: &[u8],
) -> Result<(), AllocError>
    requires { masks.now ≡ text.masks_text version note }
    ensures puts { OnOk result (out.new.items ≡ out.old.items ++ text.note_line version note) }
    ensures fits { OnOk result (text.NoteFits note) }
{
    show_masks_fit(note);
    out.extend_from_slice(b"n ")?;
    out.extend_from_slice(rule_name(note.rule).as_bytes())?;
    out.push(b' ')?;
    push_type(out, note.ty)?;
    out.extend_from_slice(masks)
}

/// Appends the lines of slots.
fn push_slots(out: &mut Vec<u8>, slots: &[(u32, Cap)]) -> Result<(), AllocError>
    ensures puts { OnOk result (out.new.items ≡ out.old.items ++ parts.each_line text.slot_line slots.now) }
    ensures fit { OnOk result (AllByRecursion text.SlotFits slots.now) }
{
    for slot in slots {
        push_slot(out, *slot)?;
    }
    Ok(())
}

/// Appends the lines of nodes.
fn push_notes(
    alloc: Global,
    out: &mut Vec<u8>,
    version: Version,
    notes: &[Note],
) -> Result<(), AllocError>
    ensures puts { OnOk result (out.new.items ≡ out.old.items ++ parts.each_line (text.note_line version) notes.now) }
    ensures fit { OnOk result (AllByRecursion text.NoteFits notes.now) }
{
    let mut masks: Vec<u8> = Vec::new(alloc);
    let mut before: Option<Note> = None;
    for note in notes {
        renew_masks(&mut masks, version, before, note)?;
        push_note(out, version, *note, masks.as_slice())?;
        before = Some(*note);
    }
    Ok(())
}

/// All lines of an annotation's text in this version.
fn write_lines(alloc: Global, version: Version, ann: &Ann) -> Result<List<u8>, AllocError>
    ensures text { IfOk result (λ bytes. bytes ≡ text.deriv_text version ann.now) }
    ensures fits { IfOk result (λ bytes. AllByRecursion text.SlotFits ann.now.slots × AllByRecursion text.NoteFits ann.now.notes) }
{
    let mut out: Vec<u8> = Vec::new(alloc);
    push_head(alloc, &mut out, version, ann.slots.len(), ann.notes.len())?;
    push_slots(&mut out, ann.slots.as_slice())?;
    push_notes(alloc, &mut out, version, ann.notes.as_slice())?;
    Ok(List::from_vec(out))
}

/// The derivation text in version 1 of an annotation of at most 640,000 slots and 200,000 nodes.
pub fn write(alloc: Global, ann: &Ann) -> Result<List<u8>, AllocError>
    requires { (length ann.now.slots ≤ derivation_slot_limit) × (length ann.now.notes ≤ derivation_node_limit) }
    // The bytes are the annotation's text in version 1.
    ensures text { IfOk result (λ bytes. bytes ≡ text.deriv_text version.One ann.now) }
    // So they are read as this annotation.
    ensures read_back { IfOk result (λ bytes. IsText bytes ann.now) }
{
    write_lines(alloc, Version::One, ann)
}

/// The derivation text in version 2 of an annotation of at most 640,000 slots and 200,000 nodes.
pub fn write2(alloc: Global, ann: &Ann) -> Result<List<u8>, AllocError>
    requires { (length ann.now.slots ≤ derivation_slot_limit) × (length ann.now.notes ≤ derivation_node_limit) }
    // The bytes are the annotation's text in version 2.
    ensures text { IfOk result (λ bytes. bytes ≡ text.deriv_text version.Two ann.now) }
    // So they are read as this annotation.
    ensures read_back { IfOk result (λ bytes. IsText bytes ann.now) }
{
    write_lines(alloc, Version::Two, ann)
}
