//! Whose turn it is.
ghost use Rattle.std.specs.Prelude.{◌≡◌, ◌*◌, ◌<◌, ◌+◌, IfSome, length, slice_get};
ghost use Rattle.pc_draws.specs.Draws.{next, high, state};
ghost use Rattle.pc_choose.specs.Able.{able_actors};
ghost use Rattle.pc_choose.specs.Marks.{marks_of};
ghost use Rattle.pc_choose.specs.Choice as choice;

use crate::able::{able_at, count_marked, first_able, is_marked};
use crate::point::{Picked, Point};
use pc_draws::Draws;
use pc_machine::Machine;
use pc_tally::Tally;

const MOST_TURNS: u32 = 95_000;

const MOST_TIMES: u32 = 64;

// The next actor of the current round.
#[tactic(auto, using(crate::proofs::Turning::past_round))]
fn next_in_round(machine: &Machine<'_>, marks: &Tally, point: Point) -> Option<u32>
    requires known { marks.now ≡ marks_of machine.now.configuration }
    ensures { result ≡ choice.next_in_round point machine.now.configuration }
{
    if point.actor >= point.round {
        return None;
    }
    first_able(machine, marks, point.actor + 1, point.round)
}

// The next actor of round robin.
fn in_turn(machine: &Machine<'_>, marks: &Tally, point: Point) -> Option<Picked>
    requires known { marks.now ≡ marks_of machine.now.configuration }
    ensures { result ≡ choice.or_new_round point machine.now.configuration (choice.next_in_round point machine.now.configuration) }
{
    if let Some(actor) = next_in_round(machine, marks, point) {
        let round = point.round;
        return Some(Picked { actor, round });
    }
    let round = machine.actors();
    let actor = able_at(machine, marks, 0)?;
    Some(Picked { actor, round })
}

// The able actor that is drawn.
#[tactic(auto, using(crate::proofs::Turning::none_able))]
fn by_draw(machine: &Machine<'_>, marks: &Tally, draws: &mut Draws) -> Option<Picked>
    requires known { marks.now ≡ marks_of machine.now.configuration }
    ensures picked { result ≡ choice.picks (slice_get (able_actors machine.now.configuration) (high (next draws.old.state) (length (able_actors machine.now.configuration)))) 0 }
    ensures drawn { IfSome result (λ _. draws.new.state ≡ next draws.old.state) }
{
    let count = count_marked(machine, marks);
    if count == 0 {
        return None;
    }
    let place = draws.draw(count);
    let actor = able_at(machine, marks, place)?;
    Some(Picked { actor, round: 0 })
}

// The actor that is picked for a new turn. Round robin draws a number too, which is not used, so that each turn takes
// two draws whatever the seed.
#[tactic(auto, using(crate::proofs::Turning::is_round, crate::proofs::Turning::is_drawn))]
fn picked(
    machine: &Machine<'_>,
    marks: &Tally,
    seed: u64,
    draws: &mut Draws,
    point: Point,
) -> Option<Picked>
    requires known { marks.now ≡ marks_of machine.now.configuration }
    requires drawn { draws.old.state ≡ state seed (2 * point.turns) }
    ensures picked { result ≡ choice.picked seed point machine.now.configuration }
    ensures drawn { IfSome result (λ _. draws.new.state ≡ next draws.old.state) }
{
    if seed != 0 {
        return by_draw(machine, marks, draws);
    }
    let found = in_turn(machine, marks, point)?;
    let _unused = draws.draw(MOST_TIMES);
    Some(found)
}

// How many steps a new turn has.
#[tactic(auto, using(crate::proofs::Turning::times_are))]
fn times(seed: u64, draws: &mut Draws, turns: u32) -> u32
    requires { draws.old.state ≡ next (state seed (2 * turns)) }
    ensures times { result ≡ choice.times seed turns }
    ensures some { 0 < result }
    ensures drawn { draws.new.state ≡ next draws.old.state }
{
    let drawn = draws.draw(MOST_TIMES) + 1;
    if seed == 0 { MOST_TIMES } else { drawn }
}

// A new turn.
#[tactic(auto, using(crate::proofs::Turning::twice_more))]
fn new_turn(
    machine: &Machine<'_>,
    marks: &Tally,
    seed: u64,
    draws: &mut Draws,
    point: Point,
) -> Option<Point>
    requires known { marks.now ≡ marks_of machine.now.configuration }
    requires drawn { draws.old.state ≡ state seed (2 * point.turns) }
    ensures turn { result ≡ choice.new_turn seed point machine.now.configuration }
    ensures drawn { IfSome result (λ q. draws.new.state ≡ state seed (2 * q.turns)) }
    ensures some { IfSome result (λ q. 0 < q.left) }
{
    if point.turns >= MOST_TURNS {
        return None;
    }
    let Picked { actor, round } = picked(machine, marks, seed, draws, point)?;
    let left = times(seed, draws, point.turns);
    Some(Point {
        turns: point.turns + 1,
        actor,
        left,
        round,
    })
}

/// Whose turn it is. Two numbers are drawn for each turn.
pub fn turn(
    machine: &Machine<'_>,
    marks: &Tally,
    seed: u64,
    draws: &mut Draws,
    point: Point,
) -> Option<Point>
    requires known { marks.now ≡ marks_of machine.now.configuration }
    requires drawn { draws.old.state ≡ state seed (2 * point.turns) }
    ensures turn { result ≡ choice.turn seed point machine.now.configuration }
    ensures drawn { IfSome result (λ q. draws.new.state ≡ state seed (2 * q.turns)) }
    ensures some { IfSome result (λ q. 0 < q.left) }
{
    if point.left > 0 && is_marked(machine, marks, point.actor) {
        Some(point)
    } else {
        new_turn(machine, marks, seed, draws, point)
    }
}
