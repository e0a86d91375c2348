//! The law, as a call that does nothing.
ghost use Rattle.pc_outcome_laws.specs.Laws.{AnswersAreOne};

use pc_choose::lists_are_one;

/// There is at most one table of the outcomes of the seeds below a count, and at most one seed that passes a limit, and
/// one limit that it passes; and there are not both a table and such a seed.
pub fn answers_are_one()
    ensures { AnswersAreOne }
{
    lists_are_one();
}
