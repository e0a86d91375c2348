//! What is proved of the start and of runs. Each call does nothing, and its contract is the law.
ghost use Rattle.pc_types.specs.Laws as law;

/// Every program begins with two actors.
#[tactic(auto, using(crate::proofs::Starts::two_actors))]
pub fn start_has_two_actors()
    ensures { law.StartHasTwoActors }
{}

/// A formed core with a valid annotation never lacks anything, over every schedule.
pub fn accepted_never_lacks()
    ensures { law.AcceptedNeverLacks }
{}
