//! Reading a derivation text in pieces.
ghost use Rattle.std.specs.Prelude.{◌≡◌, ◌≤◌, None, length};
ghost use Rattle.pc_deriv.specs.Lines as lines;
ghost use Rattle.pc_deriv.specs.Pieces.{IsNext};
ghost use Rattle.pc_deriv.specs.LineState.{taken_of, Sound};

use crate::front::front_line;
use crate::line::{Line, LineFault};
use crate::line_state::LineState;
use std::marker::Model;

/// The lines of a derivation text that comes in pieces. A line that is complete in a piece is read in place; of one
/// that is cut, the bytes are kept. Does not allocate.
///
/// Contracts see the state after the bytes taken. `pieces_are_read` states that it does not depend on how they were
/// cut, that the lines are those of the annotation that `read` returns, and that the first fault is that of `read`.
#[derive(Drop)]
pub struct Lines {
    state: LineState,
}

impl Model for Lines {
    ghost use Rattle.pc_deriv.specs.Lines.{Taken};

    ghost Value = { Taken };

    ghost use Rattle.pc_deriv.specs.LineState.{taken_of, Sound};

    ghost view = { λ l. taken_of l.state };

    ghost invariant = { λ l. Sound l.state };
}

impl Lines {
    /// No byte was taken.
    pub fn new() -> Lines
        ensures { result ≡ lines.nothing_taken }
    {
        Lines {
            state: LineState::new(),
        }
    }

    /// Takes the bytes of a piece from `at` on, up to and including the next line end, or to the end of the piece.
    /// Returns where it stopped, and the line that ended there. There is no such line iff no line end follows.
    ///
    /// # Errors
    /// The fault of the line that ends here, or that is longer than any line of a derivation text. After a fault
    /// nothing is taken, and that fault is returned again.
    pub fn next(&mut self, piece: &[u8], at: usize) -> Result<(usize, Option<Line>), LineFault>
        requires { at ≤ length piece.now }
        ensures { IsNext self.old piece.now at result self.new }
    {
        take_line(&mut self.state, piece, at)
    }

    /// Ok iff all bytes taken together are a derivation text.
    ///
    /// # Errors
    /// The fault of `next`, or else the line that is missing or has not ended.
    pub fn finish(&self) -> Result<(), LineFault>
        ensures { result ≡ lines.ended_so self.now }
    {
        self.state.end()
    }
}

// Takes bytes up to the end of a line or a fault, if there was no fault before.
fn take_bytes(
    state: &mut LineState,
    piece: &[u8],
    at: usize,
) -> Result<(usize, Option<Line>), LineFault>
    requires sound { Sound state.old }
    requires right { state.old.fault ≡ None }
    requires within { at ≤ length piece.now }
    ensures answer { IsNext (taken_of state.old) piece.now at result (taken_of state.new) }
    ensures sound { Sound state.new }
{
    let mut stop = at;
    while stop < piece.len() {
        let ended = state.take(piece[stop])?;
        stop += 1;
        match ended {
            Some(line) => return Ok((stop, Some(line))),
            None => {}
        }
    }
    Ok((stop, None))
}

// Takes the line that is complete at this place, or else bytes up to the end of a line or a fault, if there was no
// fault before.
fn take_front(
    state: &mut LineState,
    piece: &[u8],
    at: usize,
) -> Result<(usize, Option<Line>), LineFault>
    requires sound { Sound state.old }
    requires right { state.old.fault ≡ None }
    requires within { at ≤ length piece.now }
    ensures answer { IsNext (taken_of state.old) piece.now at result (taken_of state.new) }
    ensures sound { Sound state.new }
{
    if state.filled > 0 {
        return take_bytes(state, piece, at);
    }
    match front_line(state.version, state.counts, state.ended, &piece[at..]) {
        Some((line, size)) => match state.end_with(Some(line)) {
            Ok(line) => Ok((at + size, Some(line))),
            Err(fault) => Err(fault),
        },
        None => take_bytes(state, piece, at),
    }
}

// Takes bytes up to the end of a line or a fault.
#[tactic(auto, using(crate::proofs::Feeding::next_again))]
fn take_line(
    state: &mut LineState,
    piece: &[u8],
    at: usize,
) -> Result<(usize, Option<Line>), LineFault>
    requires sound { Sound state.old }
    requires within { at ≤ length piece.now }
    ensures answer { IsNext (taken_of state.old) piece.now at result (taken_of state.new) }
    ensures sound { Sound state.new }
{
    match state.fault {
        Some(fault) => Err(fault),
        None => take_front(state, piece, at),
    }
}
