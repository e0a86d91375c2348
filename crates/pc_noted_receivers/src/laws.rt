//! What is proved of the entities that a valid annotation notes. The call does nothing, and its contract is the law.
ghost use Rattle.pc_noted_receivers.specs.Laws as law;

/// What a valid annotation of a formed core notes is held, over every list of actors.
pub fn accepted_held()
    ensures { law.AcceptedHeld }
{}
