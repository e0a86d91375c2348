//! The place at which a line points, among the texts of a call.
ghost use Rattle.std.specs.Prelude.{◌≡◌, ◌≤◌, IfOk, length};
ghost use Rattle.pc_lib_buffers.specs.Ends.{SpansTo, WordTo};
ghost use Rattle.pc_lib_buffers.specs.Finding as spec;
ghost use Rattle.pc_lib_buffers.specs.Finding.{Stretches};
ghost use Rattle.pc_lib_buffers.specs.Points.{Points, PointsBeside};

use crate::beside::Beside;
use crate::corners::corner_at;
use crate::ends::{span_end, word_end};
use crate::finding::find_start;
use crate::place::{NO_PLACE, Place};
use crate::start::Start;
use std::alloc::{AllocError, Global};

/// The number of the source among the texts of a call.
const FIRST_TEXT: usize = 1;

/// The number of the text beside the source.
const SECOND_TEXT: usize = 2;

// The piece of a text from here up to this byte.
fn place_to(text: &[u8], start: Start, end: usize) -> Place
    ensures { result ≡ spec.place_to text.now start end }
{
    let corner = corner_at(text, end);
    Place {
        text: start.text,
        line: start.line,
        column: start.column,
        offset: start.offset,
        end_line: corner.line,
        end_column: corner.column,
        end_offset: end,
    }
}

// The place in the source, if a line points there.
fn place_in_source(alloc: Global, source: &[u8], start: Start) -> Result<Place, AllocError>
    ensures { IfOk result (Stretches (SpansTo source.now) source.now start) }
{
    let end = span_end(alloc, source, start.offset)?;
    Ok(place_to(source, start, end))
}

// The place in the schedule, if a line points there.
fn place_in_schedule(schedule: &[u8], start: Start) -> Place
    requires { start.offset ≤ length schedule.now }
    ensures { Stretches (WordTo schedule.now) schedule.now start result }
{
    place_to(schedule, start, word_end(schedule, start.offset))
}

// The place in the text beside the source at which a line points.
fn find_beside(line: &[u8], beside: Beside<'_>) -> Place
    ensures { PointsBeside beside.entry line.now result }
{
    match beside {
        Beside::Nothing => NO_PLACE,
        Beside::Derivation(_) => NO_PLACE,
        Beside::Schedule(bytes) => match find_start(line, "schedule", bytes, SECOND_TEXT) {
            Some(start) => place_in_schedule(bytes, start),
            None => NO_PLACE,
        },
    }
}

/// The place at which a line points. No line names a byte of a derivation.
pub fn find_place(
    alloc: Global,
    line: &[u8],
    source: &[u8],
    beside: Beside<'_>,
) -> Result<Place, AllocError>
    ensures { IfOk result (Points source.now beside.entry line.now) }
{
    match find_start(line, "source", source, FIRST_TEXT) {
        Some(start) => place_in_source(alloc, source, start),
        None => Ok(find_beside(line, beside)),
    }
}
