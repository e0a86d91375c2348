//! Laws of the names of every file.
ghost use Rattle.pc_names.specs.Laws.{CycleIsFirst, FirstIsLeast, NoCycle, NotBoth, OneClosing, OneFault};

/// A file determines its names, and the first fault of them.
pub fn names_are_one()
    ensures closing { OneClosing }
    ensures fault { OneFault }
    ensures apart { NotBoth }
{}

/// If the names and types of an entity are in the text in the order of the tree, its first fault has the smallest
/// start.
pub fn first_is_least()
    ensures { FirstIsLeast }
{}

/// The fault of a cycle is at the first trait from which a chain of `is` leads back to it.
pub fn cycles_are_chains()
    ensures first { CycleIsFirst }
    ensures none { NoCycle }
{}
