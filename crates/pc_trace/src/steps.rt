//! What the recording of a run asks of each step: the clocks before the first one, room for another actor, and whether
//! it moved.
ghost use Rattle.std.specs.Prelude.{◌≡◌, ◌≤◌, IfOk};
ghost use Rattle.pc_trace.specs.Keeps.{first_seats as seats_at_start};
ghost use Rattle.pc_trace.specs.Traces.{actor_limit};
ghost use Rattle.pc_trace.specs.Turns.{Room, Says};

use crate::fault::TraceFault;
use pc_base::List;
use pc_clocks::Seats;
use pc_semantics::{Ahead, Outcome};
use std::alloc::{AllocError, Global};

/// The greatest number of actors in a clock. A run that would make one more is not traced to its end.
const ACTOR_LIMIT: u32 = 64;

/// The clocks at the start of a program: no actors, or the stream and Main, for whom a message waits that no event
/// sent.
pub fn first_seats(alloc: Global, actors: u32) -> Result<Seats, AllocError>
    ensures { IfOk result (λ seats. seats ≡ seats_at_start actors) }
{
    let mut seats = Seats::new(alloc);
    if actors > 0 {
        seats.add_idle(alloc)?;
        seats.add_waiting(alloc, List::new(alloc))?;
    }
    Ok(seats)
}

/// There is room for another actor, if a step makes one. It does not allocate.
///
/// # Errors
/// `TooMany` with the place of the step, if it would make one actor more than a clock can have.
pub fn room(ahead: Ahead, actors: u32, place: u64) -> Result<(), TraceFault>
    requires { actors ≤ actor_limit }
    ensures { Room ahead actors place result }
{
    match ahead {
        Ahead::Spawn => {
            if actors < ACTOR_LIMIT {
                Ok(())
            } else {
                Err(TraceFault::TooMany(place))
            }
        }
        Ahead::Skipped => Ok(()),
        Ahead::Lacks => Ok(()),
        Ahead::TooLong => Ok(()),
        Ahead::Take => Ok(()),
        Ahead::Send(_) => Ok(()),
        Ahead::Task => Ok(()),
    }
}

/// Whether a step moved, if it did not end the run. It does not allocate.
///
/// # Errors
/// `Lacks` or `TooLong` with the place of the step, if it ended the run so.
pub fn moved(outcome: Outcome, place: u64) -> Result<bool, TraceFault>
    ensures { Says outcome place result }
{
    match outcome {
        Outcome::Moved => Ok(true),
        Outcome::Skipped => Ok(false),
        Outcome::Lacks(_) => Err(TraceFault::Lacks(place)),
        Outcome::TooLong => Err(TraceFault::TooLong(place)),
    }
}
