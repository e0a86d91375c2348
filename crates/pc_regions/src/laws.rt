//! What is proved of races. The call does nothing, and its contract is the law.
ghost use Rattle.pc_regions.specs.Laws as law;

/// A formed core with a valid annotation is safe: over every schedule, no two actors race, what waits in messages is
/// let alone, and no step lacks anything.
pub fn valid_is_safe()
    ensures { law.ValidIsSafe }
{}
