//! What is proved of every step, and what the machine does with small programs. Each call does nothing, and its
//! contract is the law of `specs/Laws.antt`, or what `specs/Examples.antt` states of a program in
//! `specs/Programs.antt`.
ghost use Rattle.pc_semantics.specs.Examples as example;
ghost use Rattle.pc_semantics.specs.Laws as law;

/// A step that is skipped, that lacks something or that would make too long a text leaves the configuration as it was.
#[tactic(auto, using(crate::proofs::Unmoved::only_moves_change))]
pub fn only_moves_change()
    ensures { law.OnlyMovesChange }
{}

/// `env.out.print("hi")`: eleven steps, the text that is printed, and the counts.
#[tactic(auto, using(crate::proofs::Computed::hello_runs))]
pub fn hello_runs()
    ensures { example.HelloRuns }
{}

/// Without turns, and in the turns of an actor that does not exist, nothing happens.
#[tactic(auto, using(crate::proofs::Computed::no_actor_no_step))]
pub fn no_actor_no_step()
    ensures { example.NoActorNoStep }
{}

/// Messages wait, and are taken in the order in which they were sent.
#[tactic(auto, using(crate::proofs::Computed::taken_in_order))]
pub fn messages_are_taken_in_order()
    ensures { example.TakenInOrder }
{}

/// A new actor has its object, and its constructor's message waits until the actor's turn.
#[tactic(auto, using(crate::proofs::Computed::spawned_has_its_message))]
pub fn a_spawned_actor_has_its_message()
    ensures { example.SpawnedHasItsMessage }
{}

/// A constructor gives the field of its object a value, which is then read and printed.
#[tactic(auto, using(crate::proofs::Computed::constructor_sets))]
pub fn a_constructor_sets_its_fields()
    ensures { example.ConstructorSets }
{}

/// `and` and `or` look at their right side only if the left side does not decide.
#[tactic(auto, using(crate::proofs::Computed::lazy_right))]
pub fn the_right_side_is_looked_at_when_needed()
    ensures { example.LazyRight }
{}

/// An `if` evaluates one of its branches.
#[tactic(auto, using(crate::proofs::Computed::branch_taken))]
pub fn one_branch_is_taken()
    ensures { example.BranchTaken }
{}

/// A `while` repeats as long as its condition is true.
#[tactic(auto, using(crate::proofs::Computed::while_twice))]
pub fn a_while_takes_its_turns()
    ensures { example.WhileTwice }
{}

/// Numbers wrap at 64 bits, and a quotient or remainder by 0 is 0.
#[tactic(auto, using(crate::proofs::Computed::wraps))]
pub fn numbers_wrap()
    ensures { example.Wraps }
{}

/// Each of the five lacks occurs if the program is not a valid one.
#[tactic(auto, using(crate::proofs::Computed::each_lack_comes))]
pub fn each_lack_comes()
    ensures { example.EachLackComes }
{}

/// A text of 4,096 bytes is possible, and one of a byte more ends the run.
#[tactic(auto, using(crate::proofs::Computed::text_too_long))]
pub fn a_text_may_be_too_long()
    ensures { example.TextTooLong }
{}

/// Two actors that are about to write one field race, and two that are about to read it do not.
#[tactic(auto, using(crate::proofs::Computed::races_are_seen))]
pub fn races_are_seen()
    ensures { example.RacesAreSeen }
{}
