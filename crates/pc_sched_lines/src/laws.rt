//! The law on lines of schedules, as a call that does nothing.
ghost use Rattle.pc_sched_lines.specs.Rows.{LinesAreOne};

/// A list of steps has at most one line.
pub fn lines_are_one()
    ensures { LinesAreOne }
{}
