//! Conflicts between the accesses that are reported.
ghost use Rattle.std.specs.Prelude.{◌≡◌, ◌+◌, ◌<◌, ◌^◌, Decides, IfOk, OnOk, length};
ghost use Rattle.pc_clocks.specs.Seats.{number};
ghost use Rattle.pc_trace.specs.Clashes.{FoundOfAccess, JudgedAccesses, Unknown};
ghost use Rattle.pc_trace.specs.Covers.{Covers, Rises};

use crate::lasts::{Lasts, field_spot};
use crate::row::{kept_of, latest_of};
use crate::touch::{Touch, Verdict};
use pc_base::List;
use std::alloc::{AllocError, Global};

// The number of events of an actor that a clock counts.
fn count(clock: &List<u64>, actor: u32) -> u64
    ensures { result ≡ number clock.now actor }
{
    match clock.get(actor as usize) {
        Some(count) => *count,
        None => 0,
    }
}

/// Whether two accesses clash, and the later one's clock does not count the earlier one.
pub fn is_unknown(earlier: &Touch, later: &Touch) -> bool
    ensures { Decides result (Unknown earlier.now later.now) }
{
    earlier.actor != later.actor
        && earlier.address == later.address
        && earlier.field == later.field
        && (earlier.write || later.write)
        && count(&later.clock, earlier.actor) < count(&earlier.clock, earlier.actor)
}

// What is found about the access at a place, and the places that are kept after it.
fn look(
    alloc: Global,
    touches: &[Touch],
    lasts: &mut Lasts,
    at: usize,
) -> Result<Option<usize>, AllocError>
    requires within { at < length touches.now }
    requires few { length touches.now < 2 ^ 32 }
    requires rises { Rises touches.now }
    requires covers { Covers touches.now at lasts.old }
    ensures found { IfOk result (FoundOfAccess touches.now at) }
    ensures covers { OnOk result (Covers touches.now (at + 1) lasts.new) }
{
    let access = &touches[at];
    let spot = field_spot(access.address, access.field);
    let row = lasts.take(spot);
    let found = latest_of(touches, row.as_slice(), access);
    let mut kept = kept_of(alloc, touches, row.as_slice(), access)?;
    kept.push(at as u32)?;
    lasts.put(spot, kept)?;
    Ok(found)
}

/// Whether each access counts all earlier ones that clash with it. If not, the first that does not, and the latest that
/// it does not count.
pub fn judged(alloc: Global, touches: &[Touch]) -> Result<Verdict, AllocError>
    requires few { length touches.now < 2 ^ 32 }
    requires rises { Rises touches.now }
    ensures { IfOk result (JudgedAccesses touches.now) }
{
    let mut lasts = Lasts::new(alloc);
    for at in 0..touches.len() {
        match look(alloc, touches, &mut lasts, at)? {
            Some(before) => {
                return Ok(Verdict::Conflict {
                    first: touches[before].place,
                    second: touches[at].place,
                });
            }
            None => {}
        }
    }
    Ok(Verdict::Ordered)
}
