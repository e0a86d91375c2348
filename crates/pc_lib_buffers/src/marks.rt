//! Going through a text byte by byte, with the place of each.
ghost use Rattle.std.specs.Prelude.{◌≡◌, ◌<◌, ◌+◌, ◌^◌, cond, decimal, is_some};
ghost use Rattle.pc_refusal_lines.specs.Lines.{is_line_end};
ghost use Rattle.pc_lib_buffers.specs.Fronts.{after_word, after_numbers};

use crate::fronts::{has_number, has_numbers};

/// A byte of a text, or its end, and whether its line is the one looked for.
#[derive(Clone, Copy, Debug)]
pub struct Mark {
    /// The number of bytes before it.
    pub offset: usize,
    /// One more than the number of line ends before it.
    pub line: usize,
    /// One more than the number of bytes since the last of them.
    pub column: usize,
    /// Whether the numbers looked for begin with the number of its line and a colon.
    pub in_line: bool,
}

/// The first byte, when these numbers are looked for.
pub fn first_mark(numbers: &[u8]) -> Mark
    ensures { result ≡ record { offset = 0; line = 1; column = 1; in_line = is_some (after_word (decimal 1) numbers.now) } }
{
    Mark {
        offset: 0,
        line: 1,
        column: 1,
        in_line: has_number(numbers, 1),
    }
}

/// The byte after this one, which has this value.
pub fn next_mark(mark: Mark, byte: u8, numbers: &[u8]) -> Mark
    requires offset { mark.offset < 2 ^ 63 }
    requires line { mark.line < 2 ^ 63 }
    requires column { mark.column < 2 ^ 63 }
    ensures offset { result.offset ≡ mark.offset + 1 }
    ensures line { result.line ≡ cond (is_line_end byte) (mark.line + 1) mark.line }
    ensures column { result.column ≡ cond (is_line_end byte) 1 (mark.column + 1) }
    ensures in_line { mark.in_line ≡ is_some (after_word (decimal mark.line) numbers.now) → result.in_line ≡ is_some (after_word (decimal result.line) numbers.now) }
{
    if byte == b'\n' {
        Mark {
            offset: mark.offset + 1,
            line: mark.line + 1,
            column: 1,
            in_line: has_number(numbers, mark.line + 1),
        }
    } else {
        Mark {
            offset: mark.offset + 1,
            line: mark.line,
            column: mark.column + 1,
            in_line: mark.in_line,
        }
    }
}

/// Whether the numbers looked for begin with those of the mark's line and column. Columns are written out in one line
/// only.
#[tactic(auto, using(crate::proofs::Options::no_line))]
pub fn is_named(mark: Mark, numbers: &[u8]) -> bool
    requires { mark.in_line ≡ is_some (after_word (decimal mark.line) numbers.now) }
    ensures { result ≡ is_some (after_numbers mark.line mark.column numbers.now) }
{
    if mark.in_line {
        has_numbers(numbers, mark.line, mark.column)
    } else {
        false
    }
}
