//! What an explanation begins with.
ghost use Rattle.std.specs.Prelude.{◌≡◌, ◌++◌, OnOk};
ghost use Rattle.pc_refusal_lines.specs.Lines.{offset_line};
ghost use Rattle.pc_explain_window.specs.Head as spec;

use crate::pieces::front_of;
use crate::window::push_window;
use pc_base::Span;
use pc_refusal_lines::{Place, place_after};
use std::alloc::{AllocError, Global};

// Appends the line that names a byte of the file with this name, and what is wrong there.
fn push_offset_line(
    alloc: Global,
    out: &mut Vec<u8>,
    name: &str,
    bytes: &[u8],
    offset: u32,
    what: &str,
) -> Result<(), AllocError>
    ensures { OnOk result (out.new.items ≡ out.old.items ++ offset_line name.now bytes.now offset what.now) }
{
    let Place { line, column } = place_after(front_of(bytes, offset));
    let text = format!(in alloc; "{name}:{line}:{column}: {what}\n")?;
    out.extend_from_slice(text.as_bytes())
}

/// Appends the line by which the source with this name is refused, `NAME:LINE:COLUMN: WHAT`, and the window of the
/// span.
#[tactic(auto, unfolding(crate::specs::Head::head))]
pub fn push_head(
    alloc: Global,
    out: &mut Vec<u8>,
    name: &str,
    bytes: &[u8],
    span: Span,
    what: &str,
) -> Result<(), AllocError>
    ensures { OnOk result (out.new.items ≡ out.old.items ++ spec.head name.now bytes.now span what.now) }
{
    push_offset_line(alloc, out, name, bytes, span.start, what)?;
    push_window(alloc, out, bytes, span)
}
