//! What is proved of every run if the notes on a core are held. Each call does nothing, and its contract is the law.
ghost use Rattle.pc_sends.specs.Example as example;
ghost use Rattle.pc_sends.specs.Covering as law;

/// If what is noted is held, then over every list of actors each frame and each waiting message is of a method in
/// Reach, and whatever is sent is among the pairs.
pub fn held_covers()
    ensures { law.HeldCovers }
{}

/// An actor that is only ever sent `go` is never sent its other behaviour.
pub fn what_is_never_sent()
    ensures { example.NeverStops }
{}
