//! Writing numbers.
ghost use Rattle.std.specs.Fmt.{digit_glyph, digits};
ghost use Rattle.std.specs.Prelude.{◌≡◌, ◌+◌, ◌∷◌, ◌++◌, ◌<◌, false, OnOk, decimal};

use std::alloc::AllocError;

/// The greatest number of digits after the first one of a number below 2^32.
const DECIMALS_AFTER_FIRST: usize = 9;

/// The greatest number of hexadecimal digits of a number below 2^64.
const HEX_DIGITS: usize = 16;

/// The decimal digit of a number.
fn decimal_glyph(digit: u32) -> u8
    requires { digit < 10 }
    ensures { result ≡ 48 + digit }
{
    b'0' + digit as u8
}

/// The hexadecimal digit of a number.
fn hex_glyph(digit: u64) -> u8
    requires { digit < 16 }
    ensures { result ≡ digit_glyph false digit }
{
    if digit < 10 {
        b'0' + digit as u8
    } else {
        b'a' + (digit - 10) as u8
    }
}

/// Puts a byte and those after it at the end.
fn push_row(out: &mut Vec<u8>, first: u8, rest: &[u8]) -> Result<(), AllocError>
    ensures { OnOk result (out.new.items ≡ out.old.items ++ first ∷ rest.now) }
{
    out.push(first)?;
    out.extend_from_slice(rest)
}

/// Appends a number, in decimal.
#[tactic(auto, using(crate::proofs::LastDigits::decimal_one))]
pub fn push_decimal(out: &mut Vec<u8>, number: u32) -> Result<(), AllocError>
    ensures { OnOk result (out.new.items ≡ out.old.items ++ decimal number) }
{
    if number < 10 {
        out.push(decimal_glyph(number))?;
        return Ok(());
    }
    push_decimals(out, number)
}

/// Appends the digits of a number, in decimal.
#[tactic(auto, using(crate::proofs::LastDigits::no_digit, crate::proofs::LastDigits::decimal_room, crate::proofs::LastDigits::decimal_put))]
#[inline(never)]
fn push_decimals(out: &mut Vec<u8>, number: u32) -> Result<(), AllocError>
    ensures { OnOk result (out.new.items ≡ out.old.items ++ decimal number) }
{
    let mut last = [0; DECIMALS_AFTER_FIRST];
    let mut at = DECIMALS_AFTER_FIRST;
    let mut front = number;
    'digits: while front >= 10 {
        at -= 1;
        last[at] = decimal_glyph(front % 10);
        front /= 10;
    }
    push_row(out, decimal_glyph(front), &last[at..])
}

/// Appends a number, in hexadecimal.
#[tactic(auto, using(crate::proofs::LastDigits::hex_one))]
pub fn push_hex(out: &mut Vec<u8>, number: u64) -> Result<(), AllocError>
    ensures { OnOk result (out.new.items ≡ out.old.items ++ digits 16 false number) }
{
    if number < 16 {
        out.push(hex_glyph(number))?;
        return Ok(());
    }
    push_hexes(out, number)
}

/// Appends the digits of a number, in hexadecimal.
#[tactic(auto, using(crate::proofs::LastDigits::no_digit, crate::proofs::LastDigits::hex_room, crate::proofs::LastDigits::hex_put))]
#[inline(never)]
fn push_hexes(out: &mut Vec<u8>, number: u64) -> Result<(), AllocError>
    ensures { OnOk result (out.new.items ≡ out.old.items ++ digits 16 false number) }
{
    let mut last = [0; HEX_DIGITS];
    let mut at = HEX_DIGITS;
    let mut front = number;
    'digits: while front >= 16 {
        at -= 1;
        last[at] = hex_glyph(front % 16);
        front /= 16;
    }
    push_row(out, hex_glyph(front), &last[at..])
}
