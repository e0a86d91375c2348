//! Slots with a written type.
ghost use Rattle.std.specs.Prelude.{◌↔◌, IsTrue, MatchOption};
ghost use Rattle.pc_valid.specs.Valid.{KeepsWritten};
ghost use Rattle.pc_judge.specs.Faults as spec;

use pc_ann::Ann;
use pc_core::{Core, Slot};

// Whether the slot with this number has the type that is written for it, if one is.
fn keeps_type(ann: &Ann, number: u32, slot: Slot) -> bool
    ensures { IsTrue result ↔ spec.KeepsType ann.now number slot }
{
    match (slot.written, ann.slots.get(number as usize)) {
        (None, _) => true,
        (Some(written), Some(ty)) => *ty == written,
        (Some(_), None) => false,
    }
}

// The first slot whose type is not the one that is written for it.
pub(crate) fn wrong_slot(core: &Core, ann: &Ann) -> Option<u32>
    ensures { MatchOption result (KeepsWritten core.now ann.now) (λ k. spec.FirstWrong core.now ann.now k) }
{
    core.formed();
    let mut number = 0;
    for slot in core.slots() {
        if !keeps_type(ann, number, *slot) {
            return Some(number);
        }
        number += 1;
    }
    None
}
