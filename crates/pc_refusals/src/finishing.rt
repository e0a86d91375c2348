//! The line on err and the status.
ghost use Rattle.std.specs.Prelude.{◌≤◌};
ghost use Rattle.pc_io.specs.Sink.{change};
ghost use Rattle.pc_refusals.specs.Inner.Finishing.{Finishes, LineEnds};

use crate::lines::make_unread_line;
use crate::stop::Stop;
use pc_io::{Sink, SinkFault};
use std::alloc::Global;

/// Writes the line of a command that ended, and returns the status.
pub fn finish<E: Sink>(alloc: Global, ended: Result<(), Stop>, err: &mut E) -> u8
    ensures later { E.faults err.old ≤ E.faults err.new }
    ensures finishes { Finishes (change (E.written err.old) (E.written err.new) (E.faults err.old) (E.faults err.new)) result ended }
{
    match ended {
        Ok(()) => 0,
        Err(Stop::Refused { status, line }) => put_line(status, line.as_slice(), err),
        Err(Stop::File { name }) => match make_unread_line(alloc, name.as_slice()) {
            Ok(line) => put_line(9, line.as_slice(), err),
            Err(_) => 11,
        },
        Err(Stop::Sink) => 10,
        Err(Stop::Memory) => 11,
    }
}

// Writes a line, and returns this status, or that of the failure.
fn put_line<E: Sink>(status: u8, line: &[u8], err: &mut E) -> u8
    ensures later { E.faults err.old ≤ E.faults err.new }
    ensures ends { LineEnds (change (E.written err.old) (E.written err.new) (E.faults err.old) (E.faults err.new)) result status line.now }
{
    match err.put(line) {
        Ok(()) => status,
        Err(SinkFault::Failed) => 10,
        Err(SinkFault::Memory) => 11,
    }
}
