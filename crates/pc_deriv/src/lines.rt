//! The lines of a derivation text, as they are read.
ghost use Rattle.std.specs.Prelude.{◌≡◌, option_map};
ghost use Rattle.pc_deriv.specs.Reading as reading;

use crate::numbers::{decimal_at, mask_at};
use crate::version::{Version, shown_after};
use crate::vocabulary::{after, cap_at, form_at, rule_at, version_at};
use pc_ann::Note;
use pc_caps::{Cap, Form};
use pc_masks::Mask;

/// The version and the counts of slots and of nodes in the first line, and what follows the line.
#[tactic(auto, unfolding(crate::specs::Reading::head_at))]
pub fn head_at(text: &[u8]) -> Option<((Version, (u32, u32)), &[u8])>
    ensures { option_map (λ r. (r.0, r.1.now)) result ≡ reading.head_at text.now }
{
    let text = after(text, b"rcap-derivation ")?;
    let (version, text) = version_at(text)?;
    let (slots, text) = decimal_at(text, b' ')?;
    let (nodes, text) = decimal_at(text, b'\n')?;
    Some(((version, (slots, nodes)), text))
}

/// The entity and the capability in the line of a slot, and what follows the line.
#[tactic(auto, unfolding(crate::specs::Reading::read_slot))]
pub fn slot_at(text: &[u8]) -> Option<((u32, Cap), &[u8])>
    ensures { option_map (λ r. (r.0, r.1.now)) result ≡ reading.read_slot text.now }
{
    let text = after(text, b"s ")?;
    let (entity, text) = decimal_at(text, b' ')?;
    let (cap, text) = cap_at(text)?;
    Some(((entity, cap), text))
}

/// An entity and a form.
#[tactic(auto, unfolding(crate::specs::Reading::some_type_at))]
fn some_type_at(text: &[u8]) -> Option<(Option<(u32, Form)>, &[u8])>
    ensures { option_map (λ r. (r.0, r.1.now)) result ≡ reading.some_type_at text.now }
{
    let (entity, text) = decimal_at(text, b' ')?;
    let (form, text) = form_at(text)?;
    Some((Some((entity, form)), text))
}

/// The type of a node, or `-` for none.
#[tactic(auto, unfolding(crate::specs::Reading::read_type_or_none))]
fn type_at(text: &[u8]) -> Option<(Option<(u32, Form)>, &[u8])>
    ensures { option_map (λ r. (r.0, r.1.now)) result ≡ reading.read_type_or_none text.now }
{
    match after(text, b"- ") {
        Some(rest) => Some((None, rest)),
        None => some_type_at(text),
    }
}

/// The live and the set mask.
#[tactic(auto, unfolding(crate::specs::Reading::masks_at))]
fn masks_at(text: &[u8], end: u8) -> Option<((Mask, Mask), &[u8])>
    ensures { option_map (λ r. (r.0, r.1.now)) result ≡ reading.masks_at end text.now }
{
    let (live, text) = mask_at(text, b' ')?;
    let (set, text) = mask_at(text, end)?;
    Some(((live, set), text))
}

/// The note in the line of a node, in a version, and what follows the line.
#[tactic(auto, unfolding(crate::specs::Reading::note_at))]
pub fn note_at(version: Version, text: &[u8]) -> Option<(Note, &[u8])>
    ensures { option_map (λ r. (r.0, r.1.now)) result ≡ reading.note_at version text.now }
{
    let text = after(text, b"n ")?;
    let (rule, text) = rule_at(text)?;
    let (ty, text) = type_at(text)?;
    let ((live_before, set_before), text) = masks_at(text, b' ')?;
    let ((live_shown, set_shown), text) = masks_at(text, b'\n')?;
    Some((
        Note {
            rule,
            ty,
            live_before,
            set_before,
            live_after: shown_after(version, live_before, live_shown),
            set_after: shown_after(version, set_before, set_shown),
        },
        text,
    ))
}
