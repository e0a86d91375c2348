//! `swap SRC SCHED PLACE`: the place among its words, and the exchange of two turns.
ghost use Rattle.std.specs.Prelude.{◌≡◌, ◌<◌, ◌≤◌, ◌^◌, IfOk, length};
ghost use Rattle.pc_args.specs.Line.{IsNumber};
ghost use Rattle.pc_args.specs.Numbers.{Reads};
ghost use Rattle.pc_run.specs.Spreading.{spread};
ghost use Rattle.pc_sched.specs.Schedules.{turn_limit, total};
ghost use Rattle.pc_semantics.specs.Safety.{Safe};
ghost use Rattle.pc_refusals.specs.Inner.Stages.{StageEnds};
ghost use Rattle.pc_commands.specs.Swap as spec;
ghost use Rattle.pc_commands.specs.Swap.{IsPlace, Swapping};

use pc_base::List;
use pc_core::Core;
use pc_refusals::{Stop, make_no_place_line, make_too_long_line};
use pc_sched::Turn;
use pc_sched_lines::{line_of, steps_of};
use pc_swap::{Kept, SwapFault, swap};
use std::alloc::{AllocError, Global};

/// The greatest number of digits of a place.
const PLACE_DIGITS: usize = 7;

/// The last place that can be written with these digits.
const LAST_PLACE: u32 = 9_999_999;

// The number that a text denotes with one to seven digits, if it is below 2^32.
fn number_of(text: &str) -> Option<u32>
    ensures { Reads (λ n. IsNumber 7 text.now n × (n < 2 ^ 32)) result }
{
    match text.as_bytes() {
        [b'+', ..] => None,
        bytes if bytes.len() > PLACE_DIGITS => None,
        _ => text.parse::<u32>().ok(),
    }
}

/// The place that a text denotes: one to seven digits, of a number of at least 1. There is none if the text is anything
/// else.
pub fn place_of(text: &str) -> Option<u32>
    ensures { Reads (IsPlace text.now) result }
{
    let place = number_of(text)?;
    if place < 1 || place > LAST_PLACE {
        return None;
    }
    Some(place)
}

// The line for a reason.
fn make_kept_line(alloc: Global, kept: Kept) -> Result<List<u8>, AllocError>
    ensures { IfOk result (λ line. line ≡ spec.kept_line kept) }
{
    let line = match kept {
        Kept::SameActor => "kept: same actor\n",
        Kept::NotMoved => "kept: not moved\n",
        Kept::OneMailbox => "kept: one mailbox\n",
        Kept::BothSpawn => "kept: both spawn\n",
    };
    List::from_slice(alloc, line.as_bytes())
}

// The text for the turns at a place of a list and after it, for the schedule with this name.
fn swap_list(
    alloc: Global,
    name: &str,
    core: &Core,
    list: &[u32],
    place: u32,
) -> Result<List<u8>, Stop>
    requires safe { Safe core.now }
    requires few { length list.now ≤ turn_limit }
    requires first { 1 ≤ place }
    ensures { StageEnds (Swapping name.now core.now list.now place) result }
{
    if list.len() <= place as usize {
        return Err(Stop::Refused {
            status: 15,
            line: make_no_place_line(alloc, name, place)?,
        });
    }
    match swap(alloc, core, list, place) {
        Ok(new) => Ok(line_of(alloc, new.as_slice())?),
        Err(SwapFault::Kept(kept)) => Ok(make_kept_line(alloc, kept)?),
        Err(SwapFault::TooLong(step)) => Err(Stop::Refused {
            status: 12,
            line: make_too_long_line(alloc, name, step as u64)?,
        }),
        Err(SwapFault::Memory) => Err(Stop::Memory),
    }
}

/// Exchanges the turns at a place, counted from 1, of the schedule with this name and at the next, for a safe core: the
/// new schedule as one line, or the line that says why they keep their order. It stops with 15 if there is no turn after
/// the place, with 12 at an earlier step whose text would be too long, or because memory ran out.
pub fn swap_scheduled(
    alloc: Global,
    name: &str,
    core: &Core,
    turns: &[Turn],
    place: u32,
) -> Result<List<u8>, Stop>
    requires safe { Safe core.now }
    requires few { total turns.now ≤ turn_limit }
    requires first { 1 ≤ place }
    ensures { StageEnds (Swapping name.now core.now (spread turns.now) place) result }
{
    let list = steps_of(alloc, turns)?;
    swap_list(alloc, name, core, list.as_slice(), place)
}
