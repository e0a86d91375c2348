//! The law on the lines of lists, as a call that does nothing.
ghost use Rattle.pc_play.specs.Laws.{LinesFit};

/// The line of the list of a seed, with its line end, has at most 1,048,576 bytes, as many as a schedule may have.
pub fn lines_fit()
    ensures { LinesFit }
{}
