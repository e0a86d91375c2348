//! Pieces of a text, processed line by line.
ghost use Rattle.std.specs.Prelude.{◌≡◌, ◌≤◌, ℕ, List as Sequence, Err, None, Some, true, false, length};
ghost use Rattle.pc_deriv.specs.declared.line.Line.{Line as LineIs};
ghost use Rattle.pc_deriv.specs.declared.line.LineFault.{LineFault as FaultIs};
ghost use Rattle.pc_feed.specs.Feeding.{EndsSo};
ghost use Rattle.pc_feed.specs.Steps.{MayFollow, HasRoom, LineJudged, NextTaken, PieceTaken, nothing_read};
ghost use Rattle.pc_feed.specs.Streams.{JudgedSoFar, ReadSo};
ghost use Rattle.pc_feed.specs.declared.fault.StreamFault.TheVariants.{Memory, Text};

use crate::fault::StreamFault;
use crate::judging::Judging;
use pc_core::Core;
use pc_deriv::{Line, Lines};
use pc_referee::Referee;
use std::alloc::Global;

/// What is known of the text and of its annotation, and whether memory ran out.
#[derive(Drop)]
pub struct Reading {
    pub lines: Lines,
    pub judging: Judging,
    pub spent: bool,
}

impl Reading {
    /// No byte was taken. Does not allocate.
    pub fn new(alloc: Global) -> Reading
        ensures { result ≡ nothing_read }
    {
        Reading {
            lines: Lines::new(),
            judging: Judging::new(alloc),
            spent: false,
        }
    }

    // Judges a line that ended.
    fn judge_line<R: Referee>(
        &mut self,
        core: &Core,
        line: Line,
        referee: &mut R,
    ) -> Result<(), StreamFault>
        requires right { self.old.spent ≡ false }
        requires room { self.old.judging.fault ≡ None → HasRoom core.now self.old.judging line }
        ensures { (ls : Sequence LineIs) → MayFollow ls line → JudgedSoFar core.now ls self.old.judging
            → LineJudged core.now ls line self.old self.new (R.asked referee.old) (R.asked referee.new) result }
    {
        match self.judging.take_line(core, line, referee) {
            Ok(()) => Ok(()),
            Err(_) => {
                self.spent = true;
                Err(StreamFault::Memory)
            }
        }
    }

    // Processes a piece from one place on, to the end of its next line or to its end. Returns where the line ended.
    fn take_next<R: Referee>(
        &mut self,
        core: &Core,
        piece: &[u8],
        at: usize,
        referee: &mut R,
    ) -> Result<Option<usize>, StreamFault>
        requires within { at ≤ length piece.now }
        requires fed { (bytes : Sequence ℕ) × ReadSo core.now bytes self.old }
        ensures fed { (bytes : Sequence ℕ) → ReadSo core.now bytes self.old
            → NextTaken core.now bytes piece.now at self.old self.new (R.asked referee.old) (R.asked referee.new) result }
        ensures kept { (f : FaultIs) → self.old.lines.fault ≡ Some f → result ≡ Err (Text f) }
    {
        core.formed();
        match self.lines.next(piece, at) {
            Err(fault) => Err(StreamFault::Text(fault)),
            Ok((stop, ended)) => match ended {
                None => Ok(None),
                Some(line) => {
                    self.judge_line(core, line, referee)?;
                    Ok(Some(stop))
                }
            },
        }
    }

    /// Processes a piece.
    pub fn take_piece<R: Referee>(
        &mut self,
        core: &Core,
        piece: &[u8],
        referee: &mut R,
    ) -> Result<(), StreamFault>
        requires fed { (bytes : Sequence ℕ) × ReadSo core.now bytes self.old }
        ensures fed { (bytes : Sequence ℕ) → ReadSo core.now bytes self.old
            → PieceTaken core.now bytes piece.now self.old self.new (R.asked referee.old) (R.asked referee.new) result }
        ensures kept { (f : FaultIs) → self.old.lines.fault ≡ Some f → result ≡ Err (Text f) }
    {
        let mut at = 0;
        'lines: loop {
            match self.take_next(core, piece, at, referee)? {
                None => return Ok(()),
                Some(stop) => at = stop,
            }
        }
    }

    /// The end of the text.
    pub fn end(&self, core: &Core) -> Result<(), StreamFault>
        ensures fed { (bytes : Sequence ℕ) → ReadSo core.now bytes self.now → EndsSo core.now bytes result }
        ensures spent { self.now.spent ≡ true → result ≡ Err Memory }
    {
        core.formed();
        if self.spent {
            return Err(StreamFault::Memory);
        }
        match self.lines.finish() {
            Err(fault) => Err(StreamFault::Text(fault)),
            Ok(()) => self.judging.end(core),
        }
    }
}
