//! The turns of a schedule are taken.
ghost use Rattle.std.specs.Prelude.{◌≡◌, ◌+◌, ◌<◌, ◌≤◌, [], length, drop, IfOk, OnErr};
ghost use Rattle.pc_sched.specs.Schedules.{turn_limit, total};
ghost use Rattle.pc_semantics.specs.Configurations.{start};
ghost use Rattle.pc_run.specs.Ends.{NeverLacks, IsBegun};
ghost use Rattle.pc_run.specs.Spreading.{spread};
ghost use Rattle.pc_run.specs.Underway.{Underway, ReachedSoFar};

use crate::counts::{Counts, Progress};
use pc_machine::Machine;
use pc_sched::Turn;
use std::alloc::AllocError;

// Takes the steps of the turn at a place, after those of the turns before it.
fn take_turn(
    machine: &mut Machine<'_>,
    turns: &[Turn],
    at: usize,
    counts: Counts,
) -> Result<Progress, AllocError>
    requires there { at < length turns.now }
    requires never_lacks { NeverLacks machine.old.core }
    requires underway { Underway machine.old.core (spread turns.now) machine.old.configuration counts (spread (drop at turns.now)) }
    ensures core { machine.new.core ≡ machine.old.core }
    ensures ok { IfOk result (ReachedSoFar machine.old.core (spread turns.now) machine.new.configuration (spread (drop (at + 1) turns.now))) }
    ensures err { OnErr result (IsBegun machine.old.core (spread turns.now) machine.new.configuration) }
{
    let turn = turns[at];
    let mut counts = counts;
    for _step in 0..turn.times {
        let outcome = machine.step(turn.actor)?;
        match counts.with_step(outcome) {
            Progress::Going(next) => counts = next,
            Progress::TooLong(step) => return Ok(Progress::TooLong(step)),
        }
    }
    Ok(Progress::Going(counts))
}

/// Takes the steps of all turns, up to one that is too long.
pub fn take_turns(machine: &mut Machine<'_>, turns: &[Turn]) -> Result<Progress, AllocError>
    requires started { machine.old.configuration ≡ start machine.old.core }
    requires few { total turns.now ≤ turn_limit }
    requires never_lacks { NeverLacks machine.old.core }
    ensures core { machine.new.core ≡ machine.old.core }
    ensures ok { IfOk result (ReachedSoFar machine.old.core (spread turns.now) machine.new.configuration []) }
    ensures err { OnErr result (IsBegun machine.old.core (spread turns.now) machine.new.configuration) }
{
    let mut counts = Counts::NONE;
    for at in 0..turns.len() {
        match take_turn(machine, turns, at, counts)? {
            Progress::Going(next) => counts = next,
            Progress::TooLong(step) => return Ok(Progress::TooLong(step)),
        }
    }
    Ok(Progress::Going(counts))
}
