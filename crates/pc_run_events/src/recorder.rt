//! The events of a run, with their clocks.
ghost use Rattle.std.specs.Prelude.{◌≡◌, ◌+◌, ◌<◌, ◌≤◌, [], IfErr, IfOk, MatchResult, OnErr, OnOk, length};
ghost use Rattle.pc_clocks.specs.Seats.{clock_of};
ghost use Rattle.pc_machine.specs.Limits.{list_limit};
ghost use Rattle.pc_run_events.specs.Kept.{Recorded, Under, first_posts as posts_at_start};
ghost use Rattle.pc_run_events.specs.Events.{touches_in};
ghost use Rattle.pc_run_events.specs.Turns.{HasRow, Posted, noted_with, sent_by};
ghost use Rattle.pc_trace.specs.Noted.{Noted};
ghost use Rattle.pc_trace.specs.Traces.{RanOn};
ghost use Rattle.pc_trace.specs.Stops.{TraceStops};

use crate::deeds::deed_after;
use crate::events::{Deed, RunEvent};
use crate::posts::Posts;
use crate::sight::look;
use pc_base::List;
use pc_clocks::Seats;
use pc_core::Core;
use pc_machine::{Machine, start};
use pc_semantics::Ahead;
use pc_trace::{TraceFault, first_seats, follow, moved, room};
use std::alloc::{AllocError, Global};

// The places of messages at the start of a program: no actors, or the stream and Main, for whom a message waits that no
// event sent.
fn first_posts(alloc: Global, actors: u32) -> Result<Posts, AllocError>
    ensures { IfOk result (λ posts. posts ≡ posts_at_start actors) }
{
    let mut posts = Posts::new(alloc);
    if actors > 0 {
        posts.add_idle(alloc)?;
        posts.add_waiting(alloc, 0)?;
    }
    Ok(posts)
}

// Updates the places at which waiting messages were sent, after a step of this kind at this place. Returns the place at
// which the message that the step took was sent, or 0 if it took none.
fn post(
    alloc: Global,
    posts: &mut Posts,
    ahead: Ahead,
    actor: u32,
    place: u64,
) -> Result<u64, AllocError>
    requires { HasRow ahead actor posts.old }
    ensures sent { IfOk result (λ sent. sent ≡ sent_by ahead actor posts.old) }
    ensures posts { OnOk result (Posted ahead actor place posts.old posts.new) }
{
    match ahead {
        Ahead::Take => Ok(posts.take(actor as usize)),
        Ahead::Send(receiver) => {
            posts.put(receiver as usize, place)?;
            Ok(0)
        }
        Ahead::Spawn => {
            posts.add_waiting(alloc, place)?;
            Ok(0)
        }
        Ahead::Task | Ahead::Skipped | Ahead::Lacks | Ahead::TooLong => Ok(0),
    }
}

// One more event, if a step did something.
fn note(
    alloc: Global,
    seats: &Seats,
    events: &mut List<RunEvent>,
    deed: Option<Deed>,
    actor: u32,
    place: u64,
) -> Result<(), AllocError>
    ensures { OnOk result (events.new ≡ noted_with deed place actor (clock_of seats.now actor) events.old) }
{
    match deed {
        Some(deed) => {
            let clock = seats.clock(alloc, actor as usize)?;
            events.push(RunEvent {
                place,
                actor,
                deed,
                clock,
            })
        }
        None => Ok(()),
    }
}

// One turn of a run.
fn turn(
    alloc: Global,
    machine: &mut Machine<'_>,
    seats: &mut Seats,
    posts: &mut Posts,
    events: &mut List<RunEvent>,
    list: &[u32],
    at: usize,
) -> Result<(), TraceFault>
    requires within { at < length list.now }
    requires few { length list.now ≤ list_limit }
    requires under { Under machine.old.core list.now at machine.old.configuration seats.old posts.old events.old }
    ensures ok { OnOk result (Under machine.old.core list.now (at + 1) machine.new.configuration seats.new posts.new events.new) }
    ensures err { IfErr result (TraceStops machine.old.core list.now) }
    ensures core { machine.new.core ≡ machine.old.core }
{
    let actor = list[at];
    let place = at as u64 + 1;
    let seen = look(machine, actor);
    match room(seen.ahead, seen.actors, place) {
        Ok(()) => {}
        Err(fault) => return Err(fault),
    }
    let outcome = machine.step(actor)?;
    match moved(outcome, place) {
        Ok(true) => {}
        Ok(false) => return Ok(()),
        Err(fault) => return Err(fault),
    }
    follow(
        alloc,
        seats,
        seen.ahead,
        seen.actors as usize,
        actor as usize,
    )?;
    let sent = post(alloc, posts, seen.ahead, actor, place)?;
    let deed = deed_after(machine, actor, &seen, sent);
    note(alloc, seats, events, deed, actor, place)?;
    Ok(())
}

/// The events of a run of a core that are more than plain steps, in order, with their clocks.
///
/// # Errors
/// - `TooLong` and `Lacks` iff a step of the list ends the run in this way, with its place, counted from 1.
/// - `TooMany` iff a step would make the 65th actor, with its place; the first of these three.
/// - `Memory` if memory ran out.
pub fn recorded(alloc: Global, core: &Core, list: &[u32]) -> Result<List<RunEvent>, TraceFault>
    requires { length list.now ≤ list_limit }
    ensures { MatchResult result
        (λ events. RanOn core.now list.now × Noted core.now list.now (length list.now) (touches_in events) × Recorded core.now list.now (length list.now) events)
        (TraceStops core.now list.now) }
{
    let mut machine = start(alloc, core)?;
    let mut seats = first_seats(alloc, machine.actors())?;
    let mut posts = first_posts(alloc, machine.actors())?;
    let mut events = List::new(alloc);
    for at in 0..list.len() {
        turn(
            alloc,
            &mut machine,
            &mut seats,
            &mut posts,
            &mut events,
            list,
            at,
        )?;
    }
    Ok(events)
}
