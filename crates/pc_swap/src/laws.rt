//! What is proved of steps that are apart. Each call does nothing, and its contract is the law.
ghost use Rattle.pc_swap.specs.Confluence as confluence;
ghost use Rattle.pc_swap.specs.Laws as law;

/// In a safe program, the next steps of two actors that are apart may be swapped: all four steps move, and both orders
/// lead to the same configuration.
pub fn steps_swap()
    ensures { law.StepsSwap }
{}

/// So the whole lists lead to the same configuration, whatever follows.
#[tactic(auto, using(crate::proofs::Orders::whole_lists_swap))]
pub fn lists_swap()
    ensures { law.ListsSwap }
{}

/// The order in which messages arrive in each mailbox decides where a schedule leads: in a safe program, two schedules
/// with as many steps of each actor, in which each mailbox gets its messages from the same senders in the same order,
/// lead to the same configuration.
#[tactic(auto, using(crate::proofs::Confluence::arrivals_decide))]
pub fn arrivals_decide()
    ensures { confluence.ArrivalsDecide }
{}

/// Steps that are kept for a reason are not apart.
#[tactic(auto, using(crate::proofs::Telling::kept_never))]
pub fn kept_are_not_apart()
    ensures { law.KeptAreNotApart }
{}
