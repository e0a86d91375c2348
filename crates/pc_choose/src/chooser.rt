//! Who takes the next step.
ghost use Rattle.std.specs.Prelude.{◌≡◌, ◌<◌, IfOk, IfSome};
ghost use Rattle.std.specs.FinMap.{len};
ghost use Rattle.pc_heap.specs.Heaps.{object_limit};
ghost use Rattle.pc_machine.specs.Machines.{message_limit};
ghost use Rattle.pc_semantics.specs.Text.{waiting};
ghost use Rattle.pc_choose.specs.Choice.{at_first};
ghost use Rattle.pc_choose.specs.Choosers.{Advances, IsAt, IsKnown, step_of};

use crate::able::{ahead_for, marks, take_step};
use crate::point::Point;
use crate::step::{Onward, Step};
use crate::turns::turn;
use pc_draws::Draws;
use pc_machine::{Ahead, Machine};
use pc_tally::Tally;
use std::alloc::{AllocError, Global};
use std::marker::Model;

/// Chooses the steps of a machine by a seed: it knows whose turn it is, how far the draws are, and which actors are
/// able.
#[derive(Drop)]
pub struct Chooser {
    seed: u64,
    draws: Draws,
    point: Point,
    marks: Tally,
}

impl Model for Chooser {
    ghost use Rattle.pc_choose.specs.Choosers.{ChooserData, coded_chooser};

    ghost Value = { ChooserData };

    ghost coded = { coded_chooser };

    ghost view = { λ c. record { seed = c.seed; drawn = c.draws.state; point = c.point; marks = c.marks } };
}

impl Chooser {
    /// Chooses for a machine from its first turn on.
    pub fn new(alloc: Global, machine: &Machine<'_>, seed: u64) -> Result<Chooser, AllocError>
        ensures seed { IfOk result (λ chooser. chooser.seed ≡ seed) }
        ensures point { IfOk result (λ chooser. chooser.point ≡ at_first) }
        ensures at { IfOk result (λ chooser. IsAt chooser machine.now.configuration) }
    {
        let marks = marks(alloc, machine)?;
        Ok(Chooser {
            seed,
            draws: Draws::new(seed),
            point: Point {
                turns: 0,
                actor: 0,
                left: 0,
                round: 0,
            },
            marks,
        })
    }

    /// Takes the step of the actor whose turn it is. `None` iff it is no one's turn; then the machine is unchanged.
    pub fn step(&mut self, machine: &mut Machine<'_>) -> Result<Option<Step>, AllocError>
        requires at { IsAt self.old machine.old.configuration }
        requires objects { len machine.old.configuration.objects < object_limit }
        requires messages { waiting machine.old.configuration < message_limit }
        ensures advances { IfOk result (Advances machine.old.core self.old.seed self.old.point machine.old.configuration self.new.point machine.new.configuration) }
        ensures at { IfOk result (λ step. IfSome step (λ _. IsAt self.new machine.new.configuration)) }
        ensures seed { self.new.seed ≡ self.old.seed }
        ensures core { machine.new.core ≡ machine.old.core }
    {
        match self.step_on(machine, None)? {
            Some(onward) => Ok(Some(onward.step)),
            None => Ok(None),
        }
    }

    /// The same, given the next step of the last step's actor, if it is known: it came with that step, and is not
    /// looked up again.
    pub fn step_on(
        &mut self,
        machine: &mut Machine<'_>,
        known: Option<Ahead>,
    ) -> Result<Option<Onward>, AllocError>
        requires at { IsAt self.old machine.old.configuration }
        requires known { IsKnown machine.old.core machine.old.configuration self.old.point.actor known }
        requires objects { len machine.old.configuration.objects < object_limit }
        requires messages { waiting machine.old.configuration < message_limit }
        ensures advances { IfOk result (λ onward. Advances machine.old.core self.old.seed self.old.point machine.old.configuration self.new.point machine.new.configuration (step_of onward)) }
        ensures at { IfOk result (λ onward. IfSome onward (λ _. IsAt self.new machine.new.configuration)) }
        ensures ahead { IfOk result (λ onward. IfSome onward (λ o. IsKnown machine.new.core machine.new.configuration self.new.point.actor o.ahead)) }
        ensures seed { self.new.seed ≡ self.old.seed }
        ensures core { machine.new.core ≡ machine.old.core }
    {
        let of = self.point.actor;
        let next = match turn(machine, &self.marks, self.seed, &mut self.draws, self.point) {
            Some(next) => next,
            None => return Ok(None),
        };
        let ahead = ahead_for(machine, known, of, next.actor);
        let (outcome, ahead) = take_step(&mut self.marks, machine, next.actor, ahead)?;
        self.point = Point {
            turns: next.turns,
            actor: next.actor,
            left: next.left - 1,
            round: next.round,
        };
        let step = Step {
            actor: next.actor,
            outcome,
        };
        Ok(Some(Onward { step, ahead }))
    }
}
