//! The laws of schedules, as calls that do nothing.
ghost use Rattle.pc_sched.specs.Laws.{OneList, NotBoth, OneFault, ListOrFault};

/// A text spells at most one list of turns.
pub fn turns_are_one()
    ensures { OneList }
{}

/// A text spells turns within the limit or has a first fault, but not both, and has at most one first fault.
pub fn faults_are_told()
    ensures either { ListOrFault }
    ensures not_both { NotBoth }
    ensures one { OneFault }
{}
