//! Two turns of a list are exchanged.
ghost use Rattle.std.specs.Prelude.{◌≡◌, ◌+◌, ◌-◌, ◌<◌, ◌≤◌, ◌∷◌, ◌++◌, ℕ, length, slice_set, get_or, IfOk, MatchResult, None, List as Sequence};
ghost use Rattle.pc_semantics.specs.Step.{outcomes};
ghost use Rattle.pc_semantics.specs.Safety.{Safe};
ghost use Rattle.pc_semantics.specs.Text.{end_of};
ghost use Rattle.pc_machine.specs.Limits.{list_limit};
ghost use Rattle.pc_list_steps.specs.Ends.{IsMachineAfter};
ghost use Rattle.pc_swap.specs.Ends.{FrontStops, SwapEnds};

use crate::kept::SwapFault;
use crate::parts::apart;
use pc_base::List;
use pc_core::Core;
use pc_list_steps::{StepsFault, take_steps};
use pc_machine::{Machine, start};
use std::alloc::{AllocError, Global};

// The machine after the turns before a place.
fn machine_after<'p>(alloc: Global, core: &'p Core, front: &[u32]) -> Result<Machine<'p>, SwapFault>
    requires safe { Safe core.now }
    requires few { length front.now ≤ list_limit }
    ensures { MatchResult result
        (λ machine. (end_of (outcomes core.now front.now) ≡ None) × IsMachineAfter core.now front.now machine)
        (FrontStops core.now front.now) }
{
    let machine = start(alloc, core)?;
    match take_steps(machine, front) {
        Ok(machine) => Ok(machine),
        Err(StepsFault::TooLong { step, machine: _ }) => Err(SwapFault::TooLong(step as u32)),
        Err(StepsFault::Memory) => Err(SwapFault::Memory),
    }
}

// The list with the turn at a place, counted from 1, and the next one exchanged.
fn exchanged(alloc: Global, list: &[u32], place: usize) -> Result<List<u32>, AllocError>
    requires first { 0 < place }
    requires last { place < length list.now }
    ensures { IfOk result (λ new. new ≡ slice_set (slice_set list.now (place - 1) (get_or list.now place 0)) place (get_or list.now (place - 1) 0)) }
{
    let mut turns = List::from_slice(alloc, list)?;
    let _ = turns.replace(place - 1, list[place]);
    let _ = turns.replace(place, list[place - 1]);
    Ok(turns)
}

/// Exchanges the turn at a place of a list, counted from 1, with the next one, if their steps are apart. The core is
/// safe. The list has at most 4,000,000 turns.
///
/// # Errors
/// - `Kept` iff no step before them makes too long a text and the two are not apart after these, with the answer of
///   `apart`.
/// - `TooLong(n)` iff the n-th step of the list, counted from 1, is before them and would make too long a text.
/// - `Memory` if memory ran out.
pub fn swap(alloc: Global, core: &Core, list: &[u32], place: u32) -> Result<List<u32>, SwapFault>
    requires safe { Safe core.now }
    requires few { length list.now ≤ list_limit }
    requires first { 0 < place }
    requires last { place < length list.now }
    ensures { (front rest : Sequence ℕ) (i j : ℕ) → list.now ≡ front ++ i ∷ j ∷ rest → place ≡ length front + 1 → SwapEnds core.now front i j rest result }
{
    let place = place as usize;
    let machine = machine_after(alloc, core, &list[..place - 1])?;
    match apart(&machine, list[place - 1], list[place]) {
        Ok(()) => {}
        Err(kept) => return Err(SwapFault::Kept(kept)),
    }
    Ok(exchanged(alloc, list, place)?)
}
