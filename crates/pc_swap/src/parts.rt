//! Whether the next steps of two actors are apart.
ghost use Rattle.std.specs.Prelude.{◌≡◌, ◌≢◌, ◌↔◌, IsOk, MatchResult};
ghost use Rattle.pc_swap.specs.Apart.{Apart, IsKept};
ghost use Rattle.pc_swap.specs.Ends.{is_moving, one_receiver, two_spawns};

use crate::kept::Kept;
use pc_machine::Machine;
use pc_semantics::Ahead;

// Whether a step moves.
fn moves(step: Ahead) -> bool
    ensures { result ≡ is_moving step }
{
    match step {
        Ahead::Take => true,
        Ahead::Spawn => true,
        Ahead::Send(_) => true,
        Ahead::Task => true,
        Ahead::Skipped => false,
        Ahead::Lacks => false,
        Ahead::TooLong => false,
    }
}

// Whether two steps send to the same actor.
fn send_to_one(one: Ahead, other: Ahead) -> bool
    ensures { result ≡ one_receiver one other }
{
    match (one, other) {
        (Ahead::Send(receiver), Ahead::Send(receiver_too)) => receiver == receiver_too,
        (
            Ahead::Skipped
            | Ahead::Lacks
            | Ahead::TooLong
            | Ahead::Take
            | Ahead::Spawn
            | Ahead::Send(_)
            | Ahead::Task,
            _,
        ) => false,
    }
}

// Whether two steps both make an actor.
fn both_spawn(one: Ahead, other: Ahead) -> bool
    ensures { result ≡ two_spawns one other }
{
    match (one, other) {
        (Ahead::Spawn, Ahead::Spawn) => true,
        (
            Ahead::Skipped
            | Ahead::Lacks
            | Ahead::TooLong
            | Ahead::Take
            | Ahead::Spawn
            | Ahead::Send(_)
            | Ahead::Task,
            _,
        ) => false,
    }
}

// The first part of being apart that fails for two different actors.
#[tactic(auto, using(crate::proofs::Telling::first_stays, crate::proofs::Telling::second_stays, crate::proofs::Telling::to_one, crate::proofs::Telling::both_make, crate::proofs::Telling::are_apart))]
fn apart_others(machine: &Machine<'_>, actor: u32, other_actor: u32) -> Result<(), Kept>
    requires { actor ≢ other_actor }
    ensures { MatchResult result
        (λ _. Apart machine.now.core machine.now.configuration actor other_actor)
        (IsKept machine.now.core machine.now.configuration actor other_actor) }
{
    let one = machine.ahead(actor);
    let other = machine.ahead(other_actor);
    if !moves(one) {
        return Err(Kept::NotMoved);
    }
    if !moves(other) {
        return Err(Kept::NotMoved);
    }
    if send_to_one(one, other) {
        return Err(Kept::OneMailbox);
    }
    if both_spawn(one, other) {
        return Err(Kept::BothSpawn);
    }
    Ok(())
}

/// Whether the next steps of two actors of a machine are apart. In a safe program they may then be swapped
/// (`steps_swap`). It does not allocate.
///
/// # Errors
/// The first part of being apart that fails, in the order of `Kept`.
#[tactic(auto, using(crate::proofs::Telling::exactly_apart))]
pub fn apart(machine: &Machine<'_>, actor: u32, other_actor: u32) -> Result<(), Kept>
    ensures exact { IsOk result ↔ Apart machine.now.core machine.now.configuration actor other_actor }
    ensures first { MatchResult result
        (λ _. Apart machine.now.core machine.now.configuration actor other_actor)
        (IsKept machine.now.core machine.now.configuration actor other_actor) }
{
    if actor == other_actor {
        Err(Kept::SameActor)
    } else {
        apart_others(machine, actor, other_actor)
    }
}
