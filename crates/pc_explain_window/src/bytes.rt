//! Bytes as they are shown.
ghost use Rattle.std.specs.Prelude.{◌≡◌};
ghost use Rattle.pc_explain_window.specs.Shown as spec;

// Whether a terminal would obey the byte.
fn is_obeyed(byte: u8) -> bool
    ensures { result ≡ spec.is_obeyed byte }
{
    (byte < 32 && byte != b'\t') || byte == 127
}

/// The byte as it is shown: as a dot if a terminal would obey it, that is, if it is below 32 and not a tab, or 127.
pub fn shown(byte: u8) -> u8
    ensures { result ≡ spec.shown byte }
{
    if is_obeyed(byte) { b'.' } else { byte }
}

/// Whether the byte does not begin a UTF-8 character.
pub(crate) fn goes_on(byte: u8) -> bool
    ensures { result ≡ spec.goes_on byte }
{
    128 <= byte && byte < 192
}
