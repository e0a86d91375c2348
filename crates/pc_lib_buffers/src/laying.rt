//! Texts in buffers.
ghost use Rattle.std.specs.Prelude.{◌≡◌, length};
ghost use Rattle.pc_lib_buffers.specs.Laying.{laid};

/// Copies as much of the text into the buffer as there is room for. Returns the length of the whole text.
pub fn lay(buffer: &mut [u8], text: &[u8]) -> usize
    ensures size { result ≡ length text.now }
    ensures holds { buffer.new ≡ laid text.now buffer.old }
{
    let count = text.len().min(buffer.len());
    buffer[..count].copy_from_slice(&text[..count]);
    text.len()
}
