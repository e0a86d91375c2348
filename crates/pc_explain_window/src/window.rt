//! The line of a source in which a span starts, with the span marked below it.
ghost use Rattle.std.specs.Prelude.{◌≡◌, ◌++◌, ◌-◌, ◌≤◌, length, map, slice_get, OnOk};
ghost use Rattle.pc_explain_window.specs.Shown.{shown as shown_is};
ghost use Rattle.pc_explain_window.specs.Window as spec;

use crate::bytes::shown;
use crate::marks::{push_all_under, push_carets};
use crate::numbers::push_number;
use crate::pieces::{after, first_of, front_of};
use crate::places::push_place;
use pc_base::Span;
use pc_refusal_lines::place_after;
use std::alloc::{AllocError, Global};

// If there are more bytes than this before a span in its line, the line is shown from some bytes before the span on.
const FAR: usize = 100;

const NEAR: usize = 60;

// How many bytes of a line are shown.
const WIDTH: usize = 160;

// The bytes before the next line end.
fn to_line_end(rest: &[u8]) -> &[u8]
    ensures { result.now ≡ spec.to_line_end rest.now }
{
    let mut end = 0;
    while end < rest.len() && rest[end] != b'\n' {
        end += 1;
    }
    &rest[..end]
}

fn ends_with_cr(line: &[u8]) -> bool
    ensures { result ≡ spec.is_cr (slice_get line.now (length line.now - 1)) }
{
    match line.get(line.len().saturating_sub(1)) {
        Some(byte) => *byte == b'\r',
        None => false,
    }
}

// A line without a CR at its end.
fn without_cr(line: &[u8]) -> &[u8]
    ensures { result.now ≡ spec.without_cr line.now }
{
    if ends_with_cr(line) {
        &line[..line.len().saturating_sub(1)]
    } else {
        line
    }
}

// The line that begins at this byte.
fn line_at(bytes: &[u8], start: usize) -> &[u8]
    requires { start ≤ length bytes.now }
    ensures { result.now ≡ spec.line_at bytes.now start }
{
    without_cr(to_line_end(&bytes[start..]))
}

// The byte from which a line is shown, if it has this many bytes before the span.
fn shown_from(before: usize) -> usize
    ensures value { result ≡ spec.shown_from before }
    ensures within { result ≤ before }
{
    if before > FAR { before - NEAR } else { 0 }
}

// The part of a line that is shown.
fn part_of(line: &[u8], before: usize) -> &[u8]
    ensures { result.now ≡ spec.part_of line.now before }
{
    first_of(after(line, shown_from(before)), WIDTH)
}

// Appends bytes as they are shown.
fn push_all_shown(out: &mut Vec<u8>, bytes: &[u8]) -> Result<(), AllocError>
    ensures { OnOk result (out.new.items ≡ out.old.items ++ map shown_is bytes.now) }
{
    'bytes: for byte in bytes {
        out.push(shown(*byte))?;
    }
    Ok(())
}

// Appends two dots if something is left out.
fn push_dots(out: &mut Vec<u8>, cut: bool) -> Result<(), AllocError>
    ensures { OnOk result (out.new.items ≡ out.old.items ++ spec.dots cut) }
{
    if cut {
        out.extend_from_slice(b"..")?;
    }
    Ok(())
}

// Appends two blanks below two dots.
fn push_gap(out: &mut Vec<u8>, cut: bool) -> Result<(), AllocError>
    ensures { OnOk result (out.new.items ≡ out.old.items ++ spec.ellipsis cut) }
{
    if cut {
        out.extend_from_slice(b"  ")?;
    }
    Ok(())
}

// Appends the part of a line that is shown.
fn push_shown_line(out: &mut Vec<u8>, line: &[u8], before: usize) -> Result<(), AllocError>
    ensures { OnOk result (out.new.items ≡ out.old.items ++ spec.shown_line line.now before) }
{
    push_dots(out, before > FAR)?;
    push_all_shown(out, part_of(line, before))?;
    push_dots(out, line.len().saturating_sub(shown_from(before)) > WIDTH)
}

// Appends what is written below it: the carets of a span of this many bytes.
fn push_marks(out: &mut Vec<u8>, line: &[u8], before: usize, size: usize) -> Result<(), AllocError>
    ensures { OnOk result (out.new.items ≡ out.old.items ++ spec.marks line.now before size) }
{
    push_gap(out, before > FAR)?;
    let part = part_of(line, before);
    let first = before - shown_from(before);
    push_all_under(out, first_of(part, first))?;
    push_carets(out, first_of(after(part, first), size))
}

// Appends where a span ends that continues after its first line, which ends at this byte.
fn push_further(
    alloc: Global,
    out: &mut Vec<u8>,
    bytes: &[u8],
    line_ends: usize,
    end: u32,
) -> Result<(), AllocError>
    ensures { OnOk result (out.new.items ≡ out.old.items ++ spec.further bytes.now line_ends end) }
{
    if (end as usize) > line_ends {
        out.extend_from_slice(b" .. ")?;
        push_place(alloc, out, bytes, end)?;
    }
    Ok(())
}

// What is written below a digit of a line's number.
fn blank_for(_digit: u8) -> u8
    ensures { result ≡ spec.blank_for _digit }
{
    b' '
}

// Appends a blank for each of these digits.
fn push_blank_each(out: &mut Vec<u8>, digits: &[u8]) -> Result<(), AllocError>
    ensures { OnOk result (out.new.items ≡ out.old.items ++ map spec.blank_for digits.now) }
{
    'digits: for digit in digits {
        out.push(blank_for(*digit))?;
    }
    Ok(())
}

// Appends a blank for each digit of a number.
fn push_blanks(alloc: Global, out: &mut Vec<u8>, number: u64) -> Result<(), AllocError>
    ensures { OnOk result (out.new.items ≡ out.old.items ++ spec.blanks number) }
{
    let digits = format!(in alloc; "{number}")?;
    push_blank_each(out, digits.as_bytes())
}

// Appends a line of the source with its number.
fn push_source_line(
    alloc: Global,
    out: &mut Vec<u8>,
    number: usize,
    line: &[u8],
    before: usize,
) -> Result<(), AllocError>
    ensures { OnOk result (out.new.items ≡ out.old.items ++ spec.source_line number line.now before) }
{
    push_number(alloc, out, number as u64)?;
    out.extend_from_slice(b" | ")?;
    push_shown_line(out, line, before)?;
    out.extend_from_slice(b"\n")
}

// Where the last line of these bytes begins.
#[tactic(auto, using(crate::proofs::Columns::column_within))]
fn line_start(front: &[u8]) -> usize
    ensures value { result ≡ spec.line_start front.now }
    ensures within { result ≤ length front.now }
{
    front.len() - (place_after(front).column - 1)
}

// Appends what is written below the line of a span that begins after these bytes.
fn push_under_line(
    alloc: Global,
    out: &mut Vec<u8>,
    bytes: &[u8],
    span: Span,
    front: &[u8],
    line: &[u8],
) -> Result<(), AllocError>
    ensures { OnOk result (out.new.items ≡ out.old.items ++ spec.under_line bytes.now span front.now line.now) }
{
    let place = place_after(front);
    let size = (span.end as usize).saturating_sub(front.len());
    push_blanks(alloc, out, place.line as u64)?;
    out.extend_from_slice(b" | ")?;
    push_marks(out, line, place.column - 1, size)?;
    push_further(alloc, out, bytes, line_start(front) + line.len(), span.end)?;
    out.extend_from_slice(b"\n")
}

/// Appends the line in which a span starts, and carets below the span: a line of the source and a line of carets, each
/// with a line end.
#[tactic(auto, unfolding(crate::specs::Window::window))]
pub fn push_window(
    alloc: Global,
    out: &mut Vec<u8>,
    bytes: &[u8],
    span: Span,
) -> Result<(), AllocError>
    ensures { OnOk result (out.new.items ≡ out.old.items ++ spec.window bytes.now span) }
{
    let front = front_of(bytes, span.start);
    let line = line_at(bytes, line_start(front));
    let place = place_after(front);
    push_source_line(alloc, out, place.line, line, place.column - 1)?;
    push_under_line(alloc, out, bytes, span, front, line)
}
