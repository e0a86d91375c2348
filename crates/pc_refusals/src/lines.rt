//! The lines on err, and the first line of `make`.
ghost use Rattle.std.specs.Prelude.{◌≡◌, IfOk};
ghost use Rattle.pc_refusal_lines.specs.Lines as spec;

use pc_io::Bytes;
use pc_refusal_lines::Place;
use std::alloc::{AllocError, Global};

/// `NAME: longer than N bytes`, with a line end.
pub fn make_longer_line(alloc: Global, name: &str, limit: u32) -> Result<Bytes, AllocError>
    ensures { IfOk result (λ line. line ≡ spec.longer_line name.now limit) }
{
    let text = format!(in alloc; "{name}: longer than {limit} bytes\n")?;
    Bytes::copy_of(alloc, text.as_bytes())
}

/// `NAME: cannot be read`, with a line end.
pub fn make_unread_line(alloc: Global, name: &[u8]) -> Result<Bytes, AllocError>
    ensures { IfOk result (λ line. line ≡ spec.unread_line name.now) }
{
    let mut line = name.to_vec(alloc)?;
    line.extend_from_slice(b": cannot be read\n")?;
    Ok(Bytes::from_vec(line))
}

/// How the program is called, with a line end.
pub fn make_usage_line(alloc: Global) -> Result<Bytes, AllocError>
    ensures { IfOk result (λ line. line ≡ spec.usage_line) }
{
    Bytes::copy_of(alloc, b"usage: rcap COMMAND ARGUMENT ...\n")
}

/// `NAME: no Main`, with a line end.
pub fn make_no_main_line(alloc: Global, name: &str) -> Result<Bytes, AllocError>
    ensures { IfOk result (λ line. line ≡ spec.no_main_line name.now) }
{
    let text = format!(in alloc; "{name}: no Main\n")?;
    Bytes::copy_of(alloc, text.as_bytes())
}

/// `NAME:LINE:COLUMN: WHAT`, with a line end.
pub fn make_place_line(
    alloc: Global,
    name: &str,
    place: Place,
    what: &str,
) -> Result<Bytes, AllocError>
    ensures { IfOk result (λ line. line ≡ spec.place_line name.now place.line place.column what.now) }
{
    let Place { line, column } = place;
    let text = format!(in alloc; "{name}:{line}:{column}: {what}\n")?;
    Bytes::copy_of(alloc, text.as_bytes())
}

/// `NAME: text too long at step N`, with a line end.
pub fn make_too_long_line(alloc: Global, name: &str, step: u64) -> Result<Bytes, AllocError>
    ensures { IfOk result (λ line. line ≡ spec.too_long_line name.now step) }
{
    let text = format!(in alloc; "{name}: text too long at step {step}\n")?;
    Bytes::copy_of(alloc, text.as_bytes())
}

/// `NAME: too many actors at step N`, with a line end.
pub fn make_many_actors_line(alloc: Global, name: &str, step: u64) -> Result<Bytes, AllocError>
    ensures { IfOk result (λ line. line ≡ spec.many_actors_line name.now step) }
{
    let text = format!(in alloc; "{name}: too many actors at step {step}\n")?;
    Bytes::copy_of(alloc, text.as_bytes())
}

/// `NAME: no place N`, with a line end.
pub fn make_no_place_line(alloc: Global, name: &str, place: u32) -> Result<Bytes, AllocError>
    ensures { IfOk result (λ line. line ≡ spec.no_place_line name.now place) }
{
    let text = format!(in alloc; "{name}: no place {place}\n")?;
    Bytes::copy_of(alloc, text.as_bytes())
}

/// `seed A size B nodes C`, with a line end.
pub fn make_counts_line(
    alloc: Global,
    seed: u64,
    size: u32,
    nodes: usize,
) -> Result<Bytes, AllocError>
    ensures { IfOk result (λ line. line ≡ spec.counts_line seed size nodes) }
{
    let text = format!(in alloc; "seed {seed} size {size} nodes {nodes}\n")?;
    Bytes::copy_of(alloc, text.as_bytes())
}

/// `NAME:N: bad line`, with a line end.
pub fn make_bad_line(alloc: Global, name: &str, number: u32) -> Result<Bytes, AllocError>
    ensures { IfOk result (λ line. line ≡ spec.bad_line name.now number) }
{
    let text = format!(in alloc; "{name}:{number}: bad line\n")?;
    Bytes::copy_of(alloc, text.as_bytes())
}

/// `NAME: too many lines`, with a line end.
pub fn make_many_line(alloc: Global, name: &str) -> Result<Bytes, AllocError>
    ensures { IfOk result (λ line. line ≡ spec.many_line name.now) }
{
    let text = format!(in alloc; "{name}: too many lines\n")?;
    Bytes::copy_of(alloc, text.as_bytes())
}

/// `NAME: shape`, with a line end.
pub fn make_shape_line(alloc: Global, name: &str) -> Result<Bytes, AllocError>
    ensures { IfOk result (λ line. line ≡ spec.shape_line name.now) }
{
    let text = format!(in alloc; "{name}: shape\n")?;
    Bytes::copy_of(alloc, text.as_bytes())
}

/// `NAME: slot N`, with a line end.
pub fn make_slot_line(alloc: Global, name: &str, number: u32) -> Result<Bytes, AllocError>
    ensures { IfOk result (λ line. line ≡ spec.slot_refusal_line name.now number) }
{
    let text = format!(in alloc; "{name}: slot {number}\n")?;
    Bytes::copy_of(alloc, text.as_bytes())
}

/// `NAME: node N`, with a line end.
pub fn make_node_line(alloc: Global, name: &str, number: u32) -> Result<Bytes, AllocError>
    ensures { IfOk result (λ line. line ≡ spec.node_refusal_line name.now number) }
{
    let text = format!(in alloc; "{name}: node {number}\n")?;
    Bytes::copy_of(alloc, text.as_bytes())
}

/// `NAME: unset in method N`, with a line end.
pub fn make_unset_line(alloc: Global, name: &str, number: u32) -> Result<Bytes, AllocError>
    ensures { IfOk result (λ line. line ≡ spec.unset_line name.now number) }
{
    let text = format!(in alloc; "{name}: unset in method {number}\n")?;
    Bytes::copy_of(alloc, text.as_bytes())
}
