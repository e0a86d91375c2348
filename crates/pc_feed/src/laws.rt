//! Laws of texts that are judged in pieces, and of notes that come one by one. Each call does nothing, and its contract
//! is the law.
ghost use Rattle.pc_feed.specs.Laws as law;
ghost use Rattle.pc_feed.specs.WaitingLaws.{ChildrenWaitLast, WaitingTells};

/// At most one list of nodes is asked about for the lines of a text.
pub fn one_list_is_asked()
    ensures { law.OneIsAsked }
{}

/// The same bytes end in only one way, so the result of `Stream::end` is exact.
pub fn one_end()
    ensures { law.OneEnd }
{}

/// For the text of a valid annotation each node is asked about, in order, with its note.
pub fn valid_asks_all()
    ensures { law.ValidAsksAll }
{}

/// A node's children are the last of the nodes without a parent, and those of a body are the only ones.
pub fn children_wait_last()
    ensures { ChildrenWaitLast }
{}

/// The notes of the nodes without a parent determine whether the next node satisfies its rule, in every annotation that
/// begins with the notes so far and with the next node's.
pub fn waiting_notes_tell()
    ensures { WaitingTells }
{}
