//! What an event does to the clocks that are kept.
ghost use Rattle.std.specs.Prelude.{OnOk};
ghost use Rattle.pc_semantics.specs.declared.ahead.Ahead.TheVariants as kind;
ghost use Rattle.pc_trace.specs.Turns.{FollowsEvent, Ready};

use pc_clocks::Seats;
use pc_semantics::Ahead;
use std::alloc::{AllocError, Global};

// An actor acts, and sends a message.
fn act_and_send(
    alloc: Global,
    seats: &mut Seats,
    receiver: u32,
    count: usize,
    actor: usize,
) -> Result<(), AllocError>
    requires { Ready (kind.Send receiver) count actor seats.old }
    ensures { OnOk result (FollowsEvent (kind.Send receiver) count actor seats.old seats.new) }
{
    seats.act(count, actor)?;
    seats.send(alloc, actor, receiver as usize)
}

// An actor acts, and makes another.
fn act_and_spawn(
    alloc: Global,
    seats: &mut Seats,
    count: usize,
    actor: usize,
) -> Result<(), AllocError>
    requires { Ready kind.Spawn count actor seats.old }
    ensures { OnOk result (FollowsEvent kind.Spawn count actor seats.old seats.new) }
{
    seats.act(count, actor)?;
    seats.spawn(alloc, actor)
}

/// The clocks after an event of an actor, by what it is, if there were this many actors before it.
pub fn follow(
    alloc: Global,
    seats: &mut Seats,
    ahead: Ahead,
    count: usize,
    actor: usize,
) -> Result<(), AllocError>
    requires { Ready ahead count actor seats.old }
    ensures { OnOk result (FollowsEvent ahead count actor seats.old seats.new) }
{
    match ahead {
        Ahead::Take => seats.receive(count, actor),
        Ahead::Task => seats.act(count, actor),
        Ahead::Send(receiver) => act_and_send(alloc, seats, receiver, count, actor),
        Ahead::Spawn => act_and_spawn(alloc, seats, count, actor),
        Ahead::Skipped => Ok(()),
        Ahead::Lacks => Ok(()),
        Ahead::TooLong => Ok(()),
    }
}
