//! The accesses of a run, with their clocks.
ghost use Rattle.std.specs.Prelude.{◌≡◌, ◌+◌, ◌<◌, ◌≤◌, [], IfErr, IfOk, MatchResult, OnErr, OnOk, length};
ghost use Rattle.pc_clocks.specs.Seats.{clock_of};
ghost use Rattle.pc_trace.specs.Noted.{Noted};
ghost use Rattle.pc_trace.specs.Reached.{Reached, noted_with};
ghost use Rattle.pc_machine.specs.Limits.{list_limit};
ghost use Rattle.pc_trace.specs.Traces.{RanOn};
ghost use Rattle.pc_trace.specs.Stops.{TraceStops};

use crate::fault::TraceFault;
use crate::following::follow;
use crate::steps::{first_seats, moved, room};
use crate::touch::Touch;
use pc_base::List;
use pc_clocks::Seats;
use pc_core::Core;
use pc_machine::{Machine, start};
use pc_semantics::Access;
use std::alloc::{AllocError, Global};

// One more access, if an event has one.
fn note(
    alloc: Global,
    seats: &Seats,
    touches: &mut List<Touch>,
    access: Option<Access>,
    actor: u32,
    place: u64,
) -> Result<(), AllocError>
    ensures { OnOk result (touches.new ≡ noted_with access place actor (clock_of seats.now actor) touches.old) }
{
    match access {
        Some(access) => {
            let clock = seats.clock(alloc, actor as usize)?;
            touches.push(Touch {
                place,
                actor,
                address: access.address,
                field: access.field,
                write: access.write,
                clock,
            })
        }
        None => Ok(()),
    }
}

// One turn of a run.
fn turn(
    alloc: Global,
    machine: &mut Machine<'_>,
    seats: &mut Seats,
    touches: &mut List<Touch>,
    list: &[u32],
    at: usize,
) -> Result<(), TraceFault>
    requires within { at < length list.now }
    requires few { length list.now ≤ list_limit }
    requires reached { Reached machine.old.core list.now at machine.old.configuration seats.old touches.old }
    ensures ok { OnOk result (Reached machine.old.core list.now (at + 1) machine.new.configuration seats.new touches.new) }
    ensures err { IfErr result (TraceStops machine.old.core list.now) }
    ensures core { machine.new.core ≡ machine.old.core }
{
    let actor = list[at];
    let place = at as u64 + 1;
    let ahead = machine.ahead(actor);
    let actors = machine.actors();
    let access = machine.access(actor);
    match room(ahead, actors, place) {
        Ok(()) => {}
        Err(fault) => return Err(fault),
    }
    let outcome = machine.step(actor)?;
    match moved(outcome, place) {
        Ok(true) => {}
        Ok(false) => return Ok(()),
        Err(fault) => return Err(fault),
    }
    follow(alloc, seats, ahead, actors as usize, actor as usize)?;
    note(alloc, seats, touches, access, actor, place)?;
    Ok(())
}

/// The accesses of a run of a core, in order, with their clocks.
///
/// # Errors
/// - `TooLong` and `Lacks` iff a step of the list ends the run in this way, with its place, counted from 1.
/// - `TooMany` iff a step would make the 65th actor, with its place; the first of these three.
/// - `Memory` if memory ran out.
pub fn recorded(alloc: Global, core: &Core, list: &[u32]) -> Result<List<Touch>, TraceFault>
    requires { length list.now ≤ list_limit }
    ensures { MatchResult result (λ touches. RanOn core.now list.now × Noted core.now list.now (length list.now) touches) (TraceStops core.now list.now) }
{
    let mut machine = start(alloc, core)?;
    let mut seats = first_seats(alloc, machine.actors())?;
    let mut touches = List::new(alloc);
    for at in 0..list.len() {
        turn(alloc, &mut machine, &mut seats, &mut touches, list, at)?;
    }
    Ok(touches)
}
