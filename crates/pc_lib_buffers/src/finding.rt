//! Where a line points.
ghost use Rattle.std.specs.Prelude.{◌≡◌};
ghost use Rattle.pc_lib_buffers.specs.Finding.{Finds, FindsIn};

use crate::fronts::after_word;
use crate::marks::{Mark, first_mark, is_named, next_mark};
use crate::start::Start;

// A mark as a byte of the text with this number.
fn start_of(mark: Mark, number: usize) -> Start
    ensures { result ≡ record { text = number; line = mark.line; column = mark.column; offset = mark.offset } }
{
    Start {
        text: number,
        line: mark.line,
        column: mark.column,
        offset: mark.offset,
    }
}

// The byte of the text with this number whose line and column these bytes begin with.
fn find_numbers(numbers: &[u8], text: &[u8], number: usize) -> Option<Start>
    ensures { FindsIn number text.now numbers.now result }
{
    let mut mark = first_mark(numbers);
    for byte in text {
        if is_named(mark, numbers) {
            return Some(start_of(mark, number));
        }
        mark = next_mark(mark, *byte, numbers);
    }
    if is_named(mark, numbers) {
        return Some(start_of(mark, number));
    }
    None
}

/// The byte of a text, or its end, at which a line points. The text has this number and this name.
pub fn find_start(line: &[u8], name: &str, text: &[u8], number: usize) -> Option<Start>
    ensures { Finds number name.now text.now line.now result }
{
    match after_word(line, name.as_bytes()) {
        Some(numbers) => find_numbers(numbers, text, number),
        None => None,
    }
}
