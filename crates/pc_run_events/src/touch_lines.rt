//! The accesses of a run, as lines.
ghost use Rattle.std.specs.Prelude.{◌≡◌, ◌++◌, IfOk, OnOk};
ghost use Rattle.pc_run_events.specs.Lines as spec;
ghost use Rattle.pc_run_events.specs.Parts as parts;

use crate::lines::{kind_of, push_clock};
use pc_base::List;
use pc_trace::Touch;
use std::alloc::{AllocError, Global};

// Appends an access, up to its clock.
fn push_access(alloc: Global, text: &mut Vec<u8>, touch: &Touch) -> Result<(), AllocError>
    ensures { OnOk result (text.new.items ≡ text.old.items ++ spec.touch_text touch.now) }
{
    let kind = kind_of(touch.write);
    let words = format!(in alloc;
        "{} {} {} {}.{} {} clock ",
        touch.place, touch.actor, kind, touch.address.maker, touch.address.serial, touch.field
    )?;
    text.extend_from_slice(words.as_bytes())?;
    Ok(())
}

// Appends the line of an access.
fn push_touch(alloc: Global, text: &mut Vec<u8>, touch: &Touch) -> Result<(), AllocError>
    ensures { OnOk result (text.new.items ≡ text.old.items ++ spec.touch_line touch.now) }
{
    push_access(alloc, text, touch)?;
    push_clock(text, touch.clock.as_slice())?;
    text.push(b'\n')?;
    Ok(())
}

// Appends the lines of accesses.
fn push_touches(alloc: Global, text: &mut Vec<u8>, touches: &[Touch]) -> Result<(), AllocError>
    ensures { OnOk result (text.new.items ≡ text.old.items ++ parts.touches_text touches.now) }
{
    for touch in touches {
        push_touch(alloc, text, touch)?;
    }
    Ok(())
}

// Appends the number of accesses.
fn push_count(alloc: Global, text: &mut Vec<u8>, count: usize) -> Result<(), AllocError>
    ensures { OnOk result (text.new.items ≡ text.old.items ++ spec.access_count_line count) }
{
    let words = format!(in alloc; "accesses {count} ordered\n")?;
    text.extend_from_slice(words.as_bytes())?;
    Ok(())
}

/// The lines of the accesses of a run: `PLACE ACTOR read M.S F clock CLOCK` for each access, with `write` for a write,
/// and then `accesses N ordered`.
pub fn write_trace(alloc: Global, touches: &[Touch]) -> Result<List<u8>, AllocError>
    ensures { IfOk result (λ text. text ≡ spec.trace_text touches.now) }
{
    let mut text = Vec::new(alloc);
    push_touches(alloc, &mut text, touches)?;
    push_count(alloc, &mut text, touches.len())?;
    Ok(List::from_vec(text))
}
