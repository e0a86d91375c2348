//! Lists of names in words, and names that are looked for.
ghost use Rattle.std.specs.Prelude.{◌≡◌, ◌++◌, true, OnOk};
ghost use Rattle.std.specs.List.{find, list_any};
ghost use Rattle.pc_explain_names.specs.Lists as spec;

use pc_base::Span;
use pc_explain_window::{piece_of, push_bytes, push_number, push_quoted};
use std::alloc::{AllocError, Global};

/// How many names of a list are written at most.
pub(crate) const MOST: usize = 8;

// Whether the name at the place is this one.
pub(crate) fn is_named(bytes: &[u8], name: &[u8], span: Span) -> bool
    ensures { result ≡ spec.span_is_named bytes.now name.now span }
{
    piece_of(bytes, span) == name
}

/// Whether one of the names at these places is this one.
pub(crate) fn one_is_named(bytes: &[u8], name: &[u8], spans: &[Span]) -> bool
    ensures { result ≡ list_any (spec.span_is_named bytes.now name.now) spans.now }
{
    spans.iter().any(|span| is_named(bytes, name, *span))
}

/// Whether the name at the place is this one, and the place is not this byte.
pub(crate) fn is_other(bytes: &[u8], name: &[u8], at: u32, span: Span) -> bool
    ensures { result ≡ spec.is_other bytes.now name.now at span }
{
    is_named(bytes, name, span) && span.start != at
}

/// The first of these places that has this name, other than at this byte.
pub(crate) fn first_other(bytes: &[u8], name: &[u8], at: u32, spans: &[Span]) -> Option<Span>
    ensures { result ≡ find (spec.is_other bytes.now name.now at) spans.now }
{
    for span in spans {
        if is_other(bytes, name, at, *span) {
            return Some(*span);
        }
    }
    None
}

/// A comma, unless this is the first name.
pub(crate) fn between(first: bool) -> &'static [u8]
    ensures { result.now ≡ spec.name_separator first }
{
    if first { b"" } else { b", " }
}

// Appends the name at a place, after a comma unless it is the first.
fn push_one(
    alloc: Global,
    out: &mut Vec<u8>,
    bytes: &[u8],
    first: bool,
    span: Span,
) -> Result<(), AllocError>
    ensures { OnOk result (out.new.items ≡ out.old.items ++ spec.one_listed bytes.now first span) }
{
    push_bytes(out, between(first))?;
    push_quoted(alloc, out, piece_of(bytes, span))
}

// Appends names between backquotes, with a comma between any two.
fn push_listed(
    alloc: Global,
    out: &mut Vec<u8>,
    bytes: &[u8],
    spans: &[Span],
) -> Result<(), AllocError>
    ensures { OnOk result (out.new.items ≡ out.old.items ++ spec.listed bytes.now true spans.now) }
{
    let mut first = true;
    'spans: for span in spans {
        push_one(alloc, out, bytes, first, *span)?;
        first = false;
    }
    Ok(())
}

/// Appends how many names are not written.
pub(crate) fn push_rest(alloc: Global, out: &mut Vec<u8>, count: usize) -> Result<(), AllocError>
    ensures { OnOk result (out.new.items ≡ out.old.items ++ spec.rest count) }
{
    if count > MOST {
        push_bytes(out, b" and ")?;
        push_number(alloc, out, (count - MOST) as u64)?;
        push_bytes(out, b" more")?;
    }
    Ok(())
}

/// Appends names between backquotes, the first eight and how many more there are; or `none`.
#[tactic(auto, unfolding(crate::specs::Lists::names_listed))]
pub(crate) fn push_names(
    alloc: Global,
    out: &mut Vec<u8>,
    bytes: &[u8],
    spans: &[Span],
) -> Result<(), AllocError>
    ensures { OnOk result (out.new.items ≡ out.old.items ++ spec.names_listed bytes.now spans.now) }
{
    match spans {
        [] => push_bytes(out, b"none"),
        [_, ..] => {
            push_listed(alloc, out, bytes, &spans[..MOST.min(spans.len())])?;
            push_rest(alloc, out, spans.len())
        }
    }
}
