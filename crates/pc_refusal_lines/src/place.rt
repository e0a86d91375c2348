//! The position of a byte in a text.
ghost use Rattle.std.specs.Prelude.{◌≡◌, ◌<◌, ◌+◌, ◌^◌, cond, take};
ghost use Rattle.pc_refusal_lines.specs.Lines.{is_line_end, line_number, column_number};

/// A place in a text, both numbers counted from 1.
#[derive(Clone, Copy, Debug)]
pub struct Place {
    /// One more than the number of line ends before it.
    pub line: usize,
    /// One more than the number of bytes since the last of them.
    pub column: usize,
}

/// The place of the byte at this offset, or of the text's end. It does not allocate.
pub fn place_of(bytes: &[u8], offset: usize) -> Place
    ensures line { result.line ≡ line_number (take offset bytes.now) }
    ensures column { result.column ≡ column_number (take offset bytes.now) }
{
    place_after(&bytes[..offset.min(bytes.len())])
}

/// The place after these bytes. It does not allocate.
pub fn place_after(front: &[u8]) -> Place
    ensures line { result.line ≡ line_number front.now }
    ensures column { result.column ≡ column_number front.now }
{
    let mut place = Place { line: 1, column: 1 };
    for byte in front {
        place = next_place(place, *byte);
    }
    place
}

// The place after a byte at this place.
fn next_place(place: Place, byte: u8) -> Place
    requires line { place.line < 2 ^ 63 }
    requires column { place.column < 2 ^ 63 }
    ensures line { result.line ≡ cond (is_line_end byte) (place.line + 1) place.line }
    ensures column { result.column ≡ cond (is_line_end byte) 1 (place.column + 1) }
{
    if byte == b'\n' {
        Place {
            line: place.line + 1,
            column: 1,
        }
    } else {
        Place {
            line: place.line,
            column: place.column + 1,
        }
    }
}
