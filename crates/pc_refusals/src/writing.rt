//! The writing of a command's text.
ghost use Rattle.std.specs.Prelude.{◌≤◌};
ghost use Rattle.pc_io.specs.Sink.{change};
ghost use Rattle.pc_refusals.specs.Inner.Answering.{Puts};
ghost use Rattle.pc_refusals.specs.Inner.Stages.{StageWrote};

use crate::stop::Stop;
use pc_base::List;
use pc_io::{Sink, SinkFault};

/// Writes a text in one call of `put`.
pub fn put_text<O: Sink>(out: &mut O, text: &[u8]) -> Result<(), Stop>
    ensures later { O.faults out.old ≤ O.faults out.new }
    ensures wrote { StageWrote text.now (change (O.written out.old) (O.written out.new) (O.faults out.old) (O.faults out.new)) result }
{
    match out.put(text) {
        Ok(()) => Ok(()),
        Err(SinkFault::Failed) => Err(Stop::Sink),
        Err(SinkFault::Memory) => Err(Stop::Memory),
    }
}

/// Writes the text that a command returned in one call of `put`. What stopped the command stops this too, and nothing
/// is written.
pub fn put_answer<O: Sink>(out: &mut O, answer: Result<List<u8>, Stop>) -> Result<(), Stop>
    ensures later { O.faults out.old ≤ O.faults out.new }
    ensures puts { Puts answer (change (O.written out.old) (O.written out.new) (O.faults out.old) (O.faults out.new)) result }
{
    match answer {
        Ok(text) => put_text(out, text.as_slice()),
        Err(stop) => Err(stop),
    }
}
