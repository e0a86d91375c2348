//! What is proved of the events of runs. Each call does nothing, and its contract is the law.
ghost use Rattle.pc_events.specs.AheadLaws.{AheadAgrees, OnlyAccessesTouchFields};
ghost use Rattle.pc_events.specs.Laws as law;

use pc_semantics::only_moves_change;

/// A step ends as was said in advance of its actor.
#[tactic(auto, using(crate::proofs::Agrees::ahead_agrees))]
pub fn ahead_agrees()
    ensures { AheadAgrees }
{}

/// Only accesses change fields. In every run of every program, a step leaves each object with its entity, and each of
/// its fields unchanged, except for the one field that the actor was about to write (`access`); and a new object has no
/// value in any field.
pub fn only_accesses_touch_fields()
    ensures { OnlyAccessesTouchFields }
{
    only_moves_change();
}

/// In every run of a safe program, two events of different actors that touch the same field of the same object, where
/// one of them writes it, are ordered: one comes before the other.
#[tactic(auto, using(crate::proofs::Order::conflicts_ordered))]
pub fn conflicts_are_ordered()
    ensures { law.ConflictsOrdered }
{}

/// The earlier of them comes before the later one.
#[tactic(auto, using(crate::proofs::Order::earlier_comes_before))]
pub fn earlier_comes_before()
    ensures { law.EarlierComesBefore }
{}

/// In every run of every program, what comes before an event is earlier.
#[tactic(auto, using(crate::proofs::Order::before_is_earlier))]
pub fn before_is_earlier()
    ensures { law.BeforeIsEarlier }
{}
