//! Where a piece of a text that starts at a byte ends.
ghost use Rattle.std.specs.Prelude.{◌≡◌, ◌≤◌, IfOk, length};
ghost use Rattle.std.specs.List.{prefix_len};
ghost use Rattle.pc_sched.specs.Schedules as schedules;
ghost use Rattle.pc_lib_buffers.specs.Ends as spec;
ghost use Rattle.pc_lib_buffers.specs.Ends.{SpansTo, WordTo};

use crate::refused::refused_span;
use pc_base::Span;
use std::alloc::{AllocError, Global};

// The end of the span if it starts at this byte, or else this byte.
fn end_from(start: usize, span: Option<Span>) -> usize
    ensures { result ≡ spec.end_from start span }
{
    match span {
        Some(span) => if span.start as usize == start {
            span.end as usize
        } else {
            start
        },
        None => start,
    }
}

/// The end of the span at which the source is refused, if it starts at this byte.
pub fn span_end(alloc: Global, source: &[u8], start: usize) -> Result<usize, AllocError>
    ensures { IfOk result (λ end. SpansTo source.now start end) }
{
    let span = refused_span(alloc, source)?;
    Ok(end_from(start, span))
}

fn is_blank(byte: u8) -> bool
    ensures { result ≡ schedules.is_separator byte }
{
    byte == b' ' || byte == b'\t' || byte == b'\r' || byte == b'\n'
}

// How many bytes at the front are not blanks.
fn word_length(text: &[u8]) -> usize
    ensures value { result ≡ prefix_len schedules.no_blank text.now }
    ensures within { result ≤ length text.now }
{
    let mut count = 0;
    while count < text.len() && !is_blank(text[count]) {
        count += 1;
    }
    count
}

/// The end of the word of a schedule that starts at this byte.
pub fn word_end(schedule: &[u8], start: usize) -> usize
    requires { start ≤ length schedule.now }
    ensures { WordTo schedule.now start result }
{
    start + word_length(&schedule[start..])
}
