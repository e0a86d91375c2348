//! Lines and columns.
ghost use Rattle.std.specs.Prelude.{◌≡◌, ◌++◌, OnOk};
ghost use Rattle.pc_explain_window.specs.Places as spec;

use crate::pieces::front_of;
use pc_refusal_lines::{Place, place_after};
use std::alloc::{AllocError, Global};

/// Appends the place of the byte at this offset, `L:C`.
#[tactic(auto, unfolding(crate::specs::Places::line_and_column))]
pub fn push_place(
    alloc: Global,
    out: &mut Vec<u8>,
    bytes: &[u8],
    offset: u32,
) -> Result<(), AllocError>
    ensures { OnOk result (out.new.items ≡ out.old.items ++ spec.line_and_column bytes.now offset) }
{
    let Place { line, column } = place_after(front_of(bytes, offset));
    let text = format!(in alloc; "{line}:{column}")?;
    out.extend_from_slice(text.as_bytes())
}
