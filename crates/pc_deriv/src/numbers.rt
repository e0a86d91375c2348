//! Numbers without leading zeros, and the byte that ends them.
ghost use Rattle.std.specs.Prelude.{◌≡◌, ◌<◌, ◌-◌, ◌^◌, option_map, IfSome};
ghost use Rattle.pc_deriv.specs.Reading as reading;

use pc_masks::Mask;

/// A mask from here on can't be extended by a digit.
const FULL_MASK: u64 = 1 << 60;

/// The decimal digit that a byte denotes.
fn decimal_digit(byte: u8) -> Option<u64>
    ensures value { result ≡ reading.digit_of 10 byte }
    ensures within { IfSome result (λ d. d < 10) }
{
    if byte.is_ascii_digit() {
        Some((byte - b'0') as u64)
    } else {
        None
    }
}

/// The hexadecimal digit that a byte denotes, with letters in lower case.
fn hex_digit(byte: u8) -> Option<u64>
    ensures value { result ≡ reading.digit_of 16 byte }
    ensures within { IfSome result (λ d. d < 16) }
{
    if byte.is_ascii_digit() {
        Some((byte - b'0') as u64)
    } else if byte >= b'a' && byte <= b'f' {
        Some((byte - b'a' + 10) as u64)
    } else {
        None
    }
}

/// The number extended by one decimal digit. A leading digit 0 can't be extended.
fn with_decimal(value: u64, byte: u8) -> Option<u64>
    requires { value < 2 ^ 32 }
    ensures value { result ≡ reading.with_digit 10 (2 ^ 32 - 1) value byte }
    ensures within { IfSome result (λ v. v < 2 ^ 32) }
{
    if value == 0 {
        return None;
    }
    let more = value * 10 + decimal_digit(byte)?;
    if more <= u32::MAX as u64 {
        Some(more)
    } else {
        None
    }
}

/// The mask extended by one digit. A leading digit 0 can't be extended.
fn with_hex(value: u64, byte: u8) -> Option<u64>
    ensures { result ≡ reading.with_digit 16 (2 ^ 64 - 1) value byte }
{
    if value == 0 || value >= FULL_MASK {
        return None;
    }
    Some(value * 16 + hex_digit(byte)?)
}

/// The decimal number below 2^32 at the start of the text, and what follows it and the byte that ends it.
#[tactic(auto, unfolding(crate::specs::Reading::decimal_at))]
pub fn decimal_at(text: &[u8], end: u8) -> Option<(u32, &[u8])>
    ensures { option_map (λ r. (r.0, r.1.now)) result ≡ reading.decimal_at end text.now }
{
    if text.is_empty() {
        return None;
    }
    let mut value = decimal_digit(text[0])?;
    let mut at: usize = 1;
    'digits: while at < text.len() {
        let byte = text[at];
        if byte == end {
            return Some((value as u32, &text[at + 1..]));
        }
        value = with_decimal(value, byte)?;
        at += 1;
    }
    None
}

/// The hexadecimal mask at the start of the text, and what follows it and the byte that ends it.
#[tactic(auto, unfolding(crate::specs::Reading::mask_at))]
pub fn mask_at(text: &[u8], end: u8) -> Option<(Mask, &[u8])>
    ensures { option_map (λ r. (r.0, r.1.now)) result ≡ reading.mask_at end text.now }
{
    if text.is_empty() {
        return None;
    }
    let mut value = hex_digit(text[0])?;
    let mut at: usize = 1;
    'digits: while at < text.len() {
        let byte = text[at];
        if byte == end {
            return Some((Mask(value), &text[at + 1..]));
        }
        value = with_hex(value, byte)?;
        at += 1;
    }
    None
}
