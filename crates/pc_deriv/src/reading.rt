//! Reading a derivation text.
ghost use Rattle.std.specs.Prelude.{◌≡◌, ◌≤◌, length, Ok, Err, IfOk, IfErr};
ghost use Rattle.pc_ann.specs.declared.annotation.Ann.{Ann};
ghost use Rattle.pc_deriv.specs.declared.fault.DerivFault.{DerivFault};
ghost use Rattle.pc_deriv.specs.Text.{slot_line, note_line, SlotFits, NoteFits, IsText, IsFault, BeginsLine};
ghost use Rattle.pc_deriv.specs.Parts.{derivation_slot_limit, derivation_node_limit};
ghost use Rattle.pc_deriv.specs.Parts.{RefusesDerivation};
ghost use Rattle.pc_deriv.specs.Stops.{SlotsStop, NotesStop};
ghost use Rattle.pc_deriv.specs.Answers.{AnswersDerivation};

use crate::fault::DerivFault;
use crate::lines::{head_at, note_at, slot_at};
use crate::version::Version;
use pc_ann::{Ann, Note};
use pc_base::{List, NODE_LIMIT, PROGRAM_SLOT_LIMIT};
use pc_caps::Cap;
use std::alloc::Global;

/// Reads this number of lines of slots.
#[tactic(auto, using(crate::proofs::Reached::no_slot, crate::proofs::Reached::slot_more, crate::proofs::Reached::slot_stops))]
fn read_slots<'a>(
    alloc: Global,
    text: &'a [u8],
    count: u32,
) -> Result<(List<(u32, Cap)>, &'a [u8]), DerivFault>
    requires { count ≤ derivation_slot_limit }
    ensures ok { IfOk result (λ r. BeginsLine slot_line SlotFits text.now r.0 r.1.now × (length r.0 ≡ count)) }
    ensures err { IfErr result (SlotsStop text.now count) }
{
    let mut slots: List<(u32, Cap)> = List::new(alloc);
    let mut rest = text;
    while slots.len() < count as usize {
        let (slot, next) = match slot_at(rest) {
            Some(read) => read,
            None => return Err(DerivFault::BadLine(slots.len() as u32 + 2)),
        };
        slots.push(slot)?;
        rest = next;
    }
    Ok((slots, rest))
}

/// Reads this number of lines of nodes, after those of the slots.
#[tactic(auto, using(crate::proofs::Reached::no_note, crate::proofs::Reached::note_more, crate::proofs::Reached::note_stops))]
fn read_notes<'a>(
    alloc: Global,
    version: Version,
    text: &'a [u8],
    slots: u32,
    count: u32,
) -> Result<(List<Note>, &'a [u8]), DerivFault>
    requires { (slots ≤ derivation_slot_limit) × (count ≤ derivation_node_limit) }
    ensures ok { IfOk result (λ r. BeginsLine (note_line version) NoteFits text.now r.0 r.1.now × (length r.0 ≡ count)) }
    ensures err { IfErr result (NotesStop version text.now slots count) }
{
    let mut notes: List<Note> = List::new(alloc);
    let mut rest = text;
    'notes: while notes.len() < count as usize {
        let (note, next) = match note_at(version, rest) {
            Some(read) => read,
            None => return Err(DerivFault::BadLine(slots + notes.len() as u32 + 2)),
        };
        notes.push(note)?;
        rest = next;
    }
    Ok((notes, rest))
}

/// Reads the whole text line by line.
fn read_lines(alloc: Global, bytes: &[u8]) -> Result<Ann, DerivFault>
    ensures ok { IfOk result (IsText bytes.now) }
    ensures err { IfErr result (RefusesDerivation bytes.now) }
{
    let ((version, (slot_count, node_count)), text) = match head_at(bytes) {
        Some(head) => head,
        None => return Err(DerivFault::BadLine(1)),
    };
    if slot_count > PROGRAM_SLOT_LIMIT || node_count > NODE_LIMIT {
        return Err(DerivFault::TooMany);
    }
    let (slots, text) = read_slots(alloc, text, slot_count)?;
    let (notes, text) = read_notes(alloc, version, text, slot_count, node_count)?;
    if !text.is_empty() {
        return Err(DerivFault::BadLine(slot_count + node_count + 2));
    }
    Ok(Ann { slots, notes })
}

/// The annotation whose derivation text the bytes are, in version 1 or 2, of at most 640,000 slots and 200,000 nodes.
///
/// `BadLine` has the number of the first malformed line; the forms are those of the version that the first line names.
/// `TooMany` means that the first line is well-formed in some version and a count in it exceeds its limit.
pub fn read(alloc: Global, bytes: &[u8]) -> Result<Ann, DerivFault>
    // The bytes are the annotation's text in some version.
    ensures ok { IfOk result (IsText bytes.now) }
    // The fault is that of the bytes, or memory ran out.
    ensures err { IfErr result (RefusesDerivation bytes.now) }
    // If the bytes are the text of an annotation within the limits, it is returned, unless memory ran out.
    ensures texts { (ann : Ann) → IsText bytes.now ann → AnswersDerivation result (Ok ann) }
    // If the bytes have a fault, it is returned, unless memory ran out.
    ensures faults { (fault : DerivFault) → IsFault bytes.now fault → AnswersDerivation result (Err fault) }
{
    read_lines(alloc, bytes)
}
