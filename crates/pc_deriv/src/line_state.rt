//! The bytes of a line that has not ended yet, and the content of the lines before it.
ghost use Rattle.std.specs.Prelude.{◌≡◌, ℕ, ◌+◌, ◌≤◌, None, List, length, take};
ghost use Rattle.pc_deriv.specs.Lines as lines;
ghost use Rattle.pc_deriv.specs.LineState.{taken_of, Room, Sound};

use crate::front::front_line;
use crate::line::{Line, LineFault};
use crate::version::{Version, version_of};
use pc_base::{NODE_LIMIT, PROGRAM_SLOT_LIMIT};

/// The greatest number of bytes of a line, including its end. No line of an annotation's text is longer.
const LONGEST_LINE: usize = 128;

/// The version and the counts of the first line, the bytes after the last line end, how many lines have ended, and the
/// fault.
#[derive(Drop)]
pub struct LineState {
    pub buffer: [u8; LONGEST_LINE],
    pub filled: usize,
    pub version: Version,
    pub counts: Option<(u32, u32)>,
    pub ended: u32,
    pub fault: Option<LineFault>,
}

// The line that these bytes are, after the lines that have ended.
#[tactic(auto, using(crate::proofs::WholeLines::front_is_in))]
fn line_in(version: Version, counts: Option<(u32, u32)>, ended: u32, bytes: &[u8]) -> Option<Line>
    requires { Room counts ended }
    ensures { result ≡ lines.line_in version counts ended bytes.now }
{
    let (line, _) = front_line(version, counts, ended, bytes)?;
    Some(line)
}

// Counts that exceed a limit are refused.
fn within_limits(line: Line) -> Result<Line, LineFault>
    ensures { result ≡ lines.within_limits line }
{
    match line {
        Line::Head {
            version: _,
            slots,
            nodes,
        } => {
            if slots <= PROGRAM_SLOT_LIMIT && nodes <= NODE_LIMIT {
                Ok(line)
            } else {
                Err(LineFault::TooMany)
            }
        }
        Line::Slot(_, _) => Ok(line),
        Line::Node(_) => Ok(line),
    }
}

// Line n, or its fault.
fn checked(number: u32, read: Option<Line>) -> Result<Line, LineFault>
    ensures { result ≡ lines.checked number read }
{
    match read {
        None => Err(LineFault::BadLine(number)),
        Some(line) => within_limits(line),
    }
}

// The version, after a line has ended.
fn version_with(version: Version, line: Line) -> Version
    ensures { result ≡ lines.version_with version line }
{
    match line {
        Line::Head {
            version: number,
            slots: _,
            nodes: _,
        } => version_of(number),
        Line::Slot(_, _) => version,
        Line::Node(_) => version,
    }
}

// The counts, after a line has ended.
fn counts_with(counts: Option<(u32, u32)>, line: Line) -> Option<(u32, u32)>
    ensures { result ≡ lines.counts_with counts line }
{
    match line {
        Line::Head {
            version: _,
            slots,
            nodes,
        } => Some((slots, nodes)),
        Line::Slot(_, _) => counts,
        Line::Node(_) => counts,
    }
}

impl LineState {
    /// No byte was taken.
    pub fn new() -> LineState
        ensures taken { taken_of result ≡ lines.nothing_taken }
        ensures sound { Sound result }
    {
        LineState {
            buffer: [0; LONGEST_LINE],
            filled: 0,
            version: Version::One,
            counts: None,
            ended: 0,
            fault: None,
        }
    }

    /// Ends a line, whose bytes were read as `read`, or as none if they are malformed.
    pub fn end_with(&mut self, read: Option<Line>) -> Result<Line, LineFault>
        requires right { self.old.fault ≡ None }
        requires room { Room self.old.counts self.old.ended }
        requires size { length self.old.buffer ≡ lines.longest_line }
        requires read { (bytes : List ℕ) × (read ≡ lines.line_in self.old.version self.old.counts self.old.ended bytes) }
        ensures answer { result ≡ lines.checked (self.old.ended + 1) read }
        ensures taken { taken_of self.new ≡ lines.behind (taken_of self.old) result }
        ensures sound { Sound self.new }
    {
        let answer = checked(self.ended + 1, read);
        self.filled = 0;
        match answer {
            Ok(line) => {
                self.version = version_with(self.version, line);
                self.counts = counts_with(self.counts, line);
                self.ended += 1;
            }
            Err(fault) => self.fault = Some(fault),
        }
        answer
    }

    // Ends the line of all bytes in the buffer.
    fn end_line(&mut self, filled: usize) -> Result<Line, LineFault>
        requires right { self.old.fault ≡ None }
        requires room { Room self.old.counts self.old.ended }
        requires size { length self.old.buffer ≡ lines.longest_line }
        requires within { filled ≤ lines.longest_line }
        ensures answer { result ≡ lines.line_meaning self.old.version self.old.counts self.old.ended (take filled self.old.buffer) }
        ensures taken { taken_of self.new ≡ lines.behind (taken_of self.old) result }
        ensures sound { Sound self.new }
    {
        let bytes = &self.buffer[..filled];
        let read = line_in(self.version, self.counts, self.ended, bytes);
        self.end_with(read)
    }

    /// Takes one byte, and returns the line that it ends, if any.
    pub fn take(&mut self, byte: u8) -> Result<Option<Line>, LineFault>
        requires sound { Sound self.old }
        requires right { self.old.fault ≡ None }
        ensures step { (result, taken_of self.new) ≡ lines.took (taken_of self.old) byte }
        ensures sound { Sound self.new }
    {
        self.buffer[self.filled] = byte;
        let filled = self.filled + 1;
        if byte == b'\n' {
            let line = self.end_line(filled)?;
            return Ok(Some(line));
        }
        if filled == LONGEST_LINE {
            let fault = LineFault::BadLine(self.ended + 1);
            self.filled = 0;
            self.fault = Some(fault);
            return Err(fault);
        }
        self.filled = filled;
        Ok(None)
    }

    /// The fault if nothing follows.
    pub fn end(&self) -> Result<(), LineFault>
        requires { Sound self.now }
        ensures { result ≡ lines.ended_so (taken_of self.now) }
    {
        if let Some(fault) = self.fault {
            return Err(fault);
        }
        if let Some((slots, nodes)) = self.counts {
            if self.ended == slots + nodes + 1 && self.filled == 0 {
                return Ok(());
            }
        }
        Err(LineFault::BadLine(self.ended + 1))
    }
}
