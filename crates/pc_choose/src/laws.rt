//! The laws on lists of seeds, as calls that do nothing.
ghost use Rattle.pc_choose.specs.Laws.{
  AbleStay,
  FewChange,
  ListsAreInTurns,
  ListsAreOne,
  ListsAreShort,
  ListsEnd,
  RoundRobinIsFair,
  SkipsUnable,
  StepsMove,
};

/// A step is skipped iff its actor is not able.
#[tactic(auto, using(crate::proofs::Working::skips_unable))]
pub fn skips_unable()
    ensures { SkipsUnable }
{}

/// An actor that is able stays so, whatever steps the others take.
#[tactic(auto, using(crate::proofs::Staying::able_stay))]
pub fn able_stay()
    ensures { AbleStay }
{}

/// A seed has exactly one list.
#[tactic(auto, using(crate::proofs::Listing::lists_are_one))]
pub fn lists_are_one()
    ensures { ListsAreOne }
{}

/// The list of a seed has at most 1,000,000 steps.
#[tactic(auto, using(crate::proofs::Listing::lists_are_short))]
pub fn lists_are_short()
    ensures { ListsAreShort }
{}

/// Every step of a seed's list moves, except that the last one may end the run.
#[tactic(auto, using(crate::proofs::Listing::steps_move))]
pub fn steps_move()
    ensures { StepsMove }
{}

/// A step changes whether an actor is able only for its own actor, for the one that it sends to, and for a new one.
#[tactic(auto, using(crate::proofs::Changing::few_change))]
pub fn few_change()
    ensures { FewChange }
{}

/// The list of a seed ends when no actor is able, or at a step that does not move, or it has 1,000,000 steps, or at
/// least 95,000.
#[tactic(auto, using(crate::proofs::Ending::lists_end))]
pub fn lists_end()
    ensures { ListsEnd }
{}

/// The list of a seed consists of at most 95,000 turns, each of 1 to 64 steps of one actor.
pub fn lists_are_in_turns()
    ensures { ListsAreInTurns }
{}

/// Round robin is fair: under seed 0, an actor that is able takes a step within 128 times the number of actors that
/// exist when it begins to wait, unless the list ends before.
pub fn round_robin_is_fair()
    ensures { RoundRobinIsFair }
{}
