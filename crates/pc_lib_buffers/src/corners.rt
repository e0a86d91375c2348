//! Lines and columns.
ghost use Rattle.std.specs.Prelude.{◌≡◌, ◌<◌, ◌+◌, ◌^◌, cond, take};
ghost use Rattle.pc_refusal_lines.specs.Lines.{is_line_end, line_number, column_number};

/// A line and a column, both counted from 1.
#[derive(Clone, Copy, Debug)]
pub struct Corner {
    /// One more than the number of line ends before it.
    pub line: usize,
    /// One more than the number of bytes since the last of them.
    pub column: usize,
}

// The corner after a byte at this one.
fn next_corner(corner: Corner, byte: u8) -> Corner
    requires line { corner.line < 2 ^ 63 }
    requires column { corner.column < 2 ^ 63 }
    ensures line { result.line ≡ cond (is_line_end byte) (corner.line + 1) corner.line }
    ensures column { result.column ≡ cond (is_line_end byte) 1 (corner.column + 1) }
{
    if byte == b'\n' {
        Corner {
            line: corner.line + 1,
            column: 1,
        }
    } else {
        Corner {
            line: corner.line,
            column: corner.column + 1,
        }
    }
}

// The corner after these bytes.
fn corner_after(front: &[u8]) -> Corner
    ensures line { result.line ≡ line_number front.now }
    ensures column { result.column ≡ column_number front.now }
{
    let mut corner = Corner { line: 1, column: 1 };
    for byte in front {
        corner = next_corner(corner, *byte);
    }
    corner
}

/// The corner after this number of bytes of a text, or at its end.
pub fn corner_at(text: &[u8], offset: usize) -> Corner
    ensures line { result.line ≡ line_number (take offset text.now) }
    ensures column { result.column ≡ column_number (take offset text.now) }
{
    corner_after(&text[..offset.min(text.len())])
}
