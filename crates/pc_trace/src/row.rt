//! The places of one field, seen from an access to it.
ghost use Rattle.std.specs.Prelude.{◌≡◌, ◌+◌, ◌<◌, ◌≤◌, ◌++◌, ◌∷◌, [], ℕ, Decides, IfOk, OnOk, Some, length, max, slice_get};
ghost use Rattle.pc_trace.specs.declared.touch.Touch.{Touch};
ghost use Rattle.pc_trace.specs.Clashes.{Unknown};
ghost use Rattle.pc_trace.specs.Covers.{KeptOf, LatestOf, Replaces};
ghost use Rattle.pc_trace.specs.Rows.{KeptOrNot, Looked, further};

use crate::clash::is_unknown;
use crate::touch::Touch;
use pc_base::List;
use std::alloc::{AllocError, Global};

// The later of a place and the one that was found so far.
fn later(found: Option<usize>, place: usize) -> Option<usize>
    ensures { result ≡ further found place }
{
    match found {
        Some(best) => {
            if best < place {
                Some(place)
            } else {
                Some(best)
            }
        }
        None => Some(place),
    }
}

// One more place of the row, if its access clashes with one that does not count it.
fn looked(touches: &[Touch], found: Option<usize>, place: usize, access: &Touch) -> Option<usize>
    requires { place < length touches.now }
    ensures { Looked touches.now place access.now found result }
{
    if is_unknown(&touches[place], access) {
        later(found, place)
    } else {
        found
    }
}

/// The latest of these places whose access clashes with this one, which does not count it.
pub fn latest_of(touches: &[Touch], row: &[u32], access: &Touch) -> Option<usize>
    requires { (k m : ℕ) → slice_get row.now k ≡ Some m → m < length touches.now }
    ensures { LatestOf touches.now row.now (length row.now) access.now result }
{
    let mut found = None;
    for at in 0..row.len() {
        found = looked(touches, found, row[at] as usize, access);
    }
    found
}

// Whether an access represents an earlier one to the same field.
fn replaces(access: &Touch, earlier: &Touch) -> bool
    ensures { Decides result (Replaces access.now earlier.now) }
{
    access.actor == earlier.actor && (access.write || !earlier.write)
}

// One more place, which remains unless the access represents it.
fn keep(
    touches: &[Touch],
    new: &mut List<u32>,
    place: u32,
    access: &Touch,
) -> Result<(), AllocError>
    requires { place < length touches.now }
    ensures { OnOk result (KeptOrNot touches.now place access.now new.old new.new) }
{
    if replaces(access, &touches[place as usize]) {
        Ok(())
    } else {
        new.push(place)
    }
}

/// The places that remain after an access.
pub fn kept_of(
    alloc: Global,
    touches: &[Touch],
    row: &[u32],
    access: &Touch,
) -> Result<List<u32>, AllocError>
    requires { (k m : ℕ) → slice_get row.now k ≡ Some m → m < length touches.now }
    ensures { IfOk result (KeptOf touches.now row.now (length row.now) access.now) }
{
    let mut new = List::new(alloc);
    for at in 0..row.len() {
        keep(touches, &mut new, row[at], access)?;
    }
    Ok(new)
}
