//! The writing of what a run printed, and of its numbers.
ghost use Rattle.std.specs.Prelude.{◌≡◌, ◌≤◌, ◌++◌, IfOk, string_bytes};
ghost use Rattle.pc_base.specs.Lists.{line_end};
ghost use Rattle.pc_semantics.specs.Text.{lines};
ghost use Rattle.pc_run.specs.Reports.{summary_of};
ghost use Rattle.pc_io.specs.Sink.{change};
ghost use Rattle.pc_run.specs.Writing.{Wrote};

use crate::report::{Report, RunFault};
use pc_base::List;
use pc_io::{Sink, SinkFault};
use std::alloc::{AllocError, Global};

// Writes a piece in one call of `put`.
fn put_piece<O: Sink>(out: &mut O, piece: &[u8]) -> Result<(), RunFault>
    ensures later { O.faults out.old ≤ O.faults out.new }
    ensures wrote { Wrote piece.now (change (O.written out.old) (O.written out.new) (O.faults out.old) (O.faults out.new)) result }
{
    match out.put(piece) {
        Ok(()) => Ok(()),
        Err(SinkFault::Failed) => Err(RunFault::Sink),
        Err(SinkFault::Memory) => Err(RunFault::Memory),
    }
}

// A text with its line end.
fn make_line(alloc: Global, text: &[u8]) -> Result<Vec<u8>, AllocError>
    ensures { IfOk result (λ line. line.items ≡ text.now ++ line_end) }
{
    let mut line = Vec::with_capacity(alloc, text.len() + 1)?;
    line.extend_from_slice(text)?;
    line.push(b'\n')?;
    Ok(line)
}

/// Writes texts, each with its line end in one call of `put`.
pub fn put_texts<O: Sink>(alloc: Global, texts: &[List<u8>], out: &mut O) -> Result<(), RunFault>
    ensures later { O.faults out.old ≤ O.faults out.new }
    ensures wrote { Wrote (lines texts.now) (change (O.written out.old) (O.written out.new) (O.faults out.old) (O.faults out.new)) result }
{
    for text in texts {
        let line = make_line(alloc, text.as_slice())?;
        put_piece(out, &line)?;
    }
    Ok(())
}

// The line of a run's numbers.
fn make_summary(alloc: Global, report: Report) -> Result<String, AllocError>
    ensures { IfOk result (λ line. string_bytes line ≡ summary_of report) }
{
    let Report {
        moved,
        skipped,
        actors,
        objects,
        waiting,
    } = report;
    format!(in alloc;
        "steps {moved} skipped {skipped} actors {actors} objects {objects} waiting {waiting}\n"
    )
}

/// Writes a run's numbers in one call of `put`.
pub fn put_summary<O: Sink>(alloc: Global, report: Report, out: &mut O) -> Result<(), RunFault>
    ensures later { O.faults out.old ≤ O.faults out.new }
    ensures wrote { Wrote (summary_of report) (change (O.written out.old) (O.written out.new) (O.faults out.old) (O.faults out.new)) result }
{
    let line = make_summary(alloc, report)?;
    put_piece(out, line.as_bytes())
}
