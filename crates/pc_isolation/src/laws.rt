//! What is proved of waiting messages. The calls do nothing, and their contracts are the laws.
ghost use Rattle.pc_isolation.specs.Examples as example;
ghost use Rattle.pc_isolation.specs.ValidLaws as law;

use pc_semantics::only_moves_change;

/// A formed core with a valid annotation is isolated in depth: over every schedule, no step touches what is inside a
/// waiting `iso` argument, or an object that leads there; none writes what is seen from a waiting `iso` or `val`
/// argument; and what is inside one argument is neither inside nor seen from any other.
pub fn valid_is_isolated()
    ensures { law.ValidIsIsolated }
{}

/// What a message carries is passed as a whole. Whatever steps are made until it is taken, the same objects are inside
/// each of its arguments and seen from it, with the same contents; and the step that takes it puts each argument
/// that is an object into the slot of its parameter, and changes no object.
pub fn valid_is_passed_whole()
    ensures { law.ValidIsPassedWhole }
{
    only_moves_change();
}

/// The definitions detect what is not let alone: an `iso` argument that is about to be read, a `val` argument that is
/// about to be written, and a part of an `iso` argument, which is inside it without being the argument itself. A `val`
/// argument that is about to be read is let alone.
#[tactic(auto, using(crate::proofs::Examples::waiting_is_seen))]
pub fn waiting_is_seen()
    ensures { example.WaitingIsSeen }
{}

/// What a place declared `val` leads to is never written again, over every schedule, and its fields hold what they held.
pub fn valid_keeps_val()
    ensures { law.ValidKeepsVal }
{
    only_moves_change();
}
