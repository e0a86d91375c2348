//! Pieces of a source.
ghost use Rattle.std.specs.Prelude.{◌≡◌, drop, take};
ghost use Rattle.pc_explain_window.specs.Places as spec;

use pc_base::Span;

/// The bytes before an offset.
pub(crate) fn front_of(bytes: &[u8], offset: u32) -> &[u8]
    ensures { result.now ≡ take offset bytes.now }
{
    first_of(bytes, offset as usize)
}

/// The first `count` bytes.
pub(crate) fn first_of(bytes: &[u8], count: usize) -> &[u8]
    ensures { result.now ≡ take count bytes.now }
{
    &bytes[..count.min(bytes.len())]
}

/// The bytes after the first `count` ones.
pub(crate) fn after(bytes: &[u8], count: usize) -> &[u8]
    ensures { result.now ≡ drop count bytes.now }
{
    &bytes[count.min(bytes.len())..]
}

/// The bytes of a span.
#[tactic(auto, unfolding(crate::specs::Places::piece_of))]
pub fn piece_of(bytes: &[u8], span: Span) -> &[u8]
    ensures { result.now ≡ spec.piece_of bytes.now span }
{
    after(front_of(bytes, span.end), span.start as usize)
}
