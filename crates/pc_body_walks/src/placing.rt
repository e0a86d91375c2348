//! The slots of locals.
ghost use Rattle.std.specs.Prelude.{◌≡◌, ◌++◌, IfOk, OnOk};
ghost use Rattle.pc_body_spec.specs.Slots.{placed_from};

use crate::local::Local;
use pc_base::List;
use pc_resolve::{LocalSlots, Placed};
use std::alloc::{AllocError, Global};

/// These locals with the slots from this one on, looked up by the places of their names. `Err` if memory runs out, or
/// if the slot after the last one does not fit in 32 bits.
pub fn slots(alloc: Global, first: u32, locals: &[Local]) -> Result<LocalSlots, AllocError>
    ensures { IfOk result (λ placed. placed ≡ placed_from first locals.now) }
{
    let mut placed = List::new(alloc);
    add_placed(&mut placed, first, locals)?;
    LocalSlots::of(alloc, placed)
}

// Appends these locals, with the slots from this one on.
fn add_placed(placed: &mut List<Placed>, first: u32, locals: &[Local]) -> Result<(), AllocError>
    ensures { OnOk result (placed.new ≡ placed.old ++ placed_from first locals.now) }
{
    let mut slot = first;
    for local in locals {
        placed.push(Placed::new(local.name().span.start, slot))?;
        let Some(next) = slot.checked_add(1) else {
            return Err(AllocError);
        };
        slot = next;
    }
    Ok(())
}
