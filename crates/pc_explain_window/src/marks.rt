//! What is written below a line: blanks and tabs up to the span, and carets below it.
ghost use Rattle.std.specs.Prelude.{◌≡◌, ◌++◌, flat_map, OnOk};
ghost use Rattle.pc_explain_window.specs.Window as spec;

use crate::bytes::goes_on;
use std::alloc::AllocError;

// Appends what is written below a byte before the span.
fn push_under(out: &mut Vec<u8>, byte: u8) -> Result<(), AllocError>
    ensures { OnOk result (out.new.items ≡ out.old.items ++ spec.under byte) }
{
    if byte == b'\t' {
        out.push(b'\t')?;
    } else if !goes_on(byte) {
        out.push(b' ')?;
    }
    Ok(())
}

/// Appends what is written below the bytes before the span.
pub(crate) fn push_all_under(out: &mut Vec<u8>, bytes: &[u8]) -> Result<(), AllocError>
    ensures { OnOk result (out.new.items ≡ out.old.items ++ flat_map spec.under bytes.now) }
{
    'bytes: for byte in bytes {
        push_under(out, *byte)?;
    }
    Ok(())
}

// Appends the caret of a byte of the span.
fn push_caret(out: &mut Vec<u8>, byte: u8) -> Result<(), AllocError>
    ensures { OnOk result (out.new.items ≡ out.old.items ++ spec.caret byte) }
{
    if !goes_on(byte) {
        out.push(b'^')?;
    }
    Ok(())
}

// Appends a caret for each character.
fn push_each_caret(out: &mut Vec<u8>, bytes: &[u8]) -> Result<(), AllocError>
    ensures { OnOk result (out.new.items ≡ out.old.items ++ flat_map spec.caret bytes.now) }
{
    'bytes: for byte in bytes {
        push_caret(out, *byte)?;
    }
    Ok(())
}

/// Appends a caret for each character of the span, and at least one.
pub(crate) fn push_carets(out: &mut Vec<u8>, bytes: &[u8]) -> Result<(), AllocError>
    ensures { OnOk result (out.new.items ≡ out.old.items ++ spec.carets bytes.now) }
{
    let before = out.len();
    push_each_caret(out, bytes)?;
    if out.len() == before {
        out.push(b'^')?;
    }
    Ok(())
}
