//! The laws of tokens, as calls that do nothing.
ghost use Rattle.pc_lex.specs.Laws.{OneList, NotBoth, NoList, OneFault, ListOrFault};

/// A text has at most one token list.
pub fn tokens_are_one()
    ensures { OneList }
{}

/// A text has a token list within the limit or a first fault, but not both, and at most one first fault.
pub fn faults_are_told()
    ensures either { ListOrFault }
    ensures not_both { NotBoth }
    ensures no_list { NoList }
    ensures one { OneFault }
{}
