//! Numbers: decimal, hexadecimal and binary, with their values.
ghost use Rattle.std.specs.Prelude.{◌≡◌, ◌<◌, ◌≤◌, ◌+◌, ◌*◌, ◌==◌, ◌&&◌, length, drop, slice_index, true, IfOk, IfErr};
ghost use Rattle.std.specs.Char.{is_digit, digit_value};
ghost use Rattle.pc_lex.specs.Pieces.{first_test};
ghost use Rattle.pc_lex.specs.Reading.{BelowOrNone64, StopWithin};
ghost use Rattle.pc_lex.specs.Reading as reading;

use crate::classes::is_joined;
use crate::pieces::{Found, LexStop};
use pc_token::TokenKind;

/// The value of a digit, counting letters of either case as 10 to 35, or 36 if the byte is none.
pub fn digit_value(byte: u8) -> u8
    ensures value { result ≡ digit_value byte }
    ensures within { result ≤ 36 }
{
    match byte {
        b'0'..=b'9' => byte - b'0',
        b'A'..=b'Z' => byte - b'A' + 10,
        b'a'..=b'z' => byte - b'a' + 10,
        _ => 36,
    }
}

/// Whether a byte is a digit of a base.
pub fn is_digit(byte: u8, base: u8) -> bool
    ensures { result ≡ is_digit byte base }
{
    digit_value(byte) < base
}

/// Whether the text begins with a digit of a base.
fn starts_digit(text: &[u8], base: u8) -> bool
    ensures value { result ≡ first_test (λ b. is_digit b base) text.now }
    ensures within { result ≡ true → 0 < length text.now }
{
    match text {
        [b, ..] => is_digit(*b, base),
        [] => false,
    }
}

/// Whether there is a `_` at a place, followed by a digit.
fn spaces(text: &[u8], at: usize, base: u8) -> bool
    requires { at < length text.now }
    ensures value { result ≡ (slice_index text.now at == 95 && first_test (λ b. is_digit b base) (drop (at + 1) text.now)) }
    ensures within { result ≡ true → at + 1 < length text.now }
{
    text[at] == b'_' && starts_digit(&text[at + 1..], base)
}

/// The number of bytes at the front that are digits of a base, with at most one `_` between any two.
#[tactic(auto, using(crate::proofs::DigitSteps::len_step, crate::proofs::DigitSteps::len_space, crate::proofs::DigitSteps::len_ends, crate::proofs::DigitSteps::len_first, crate::proofs::DigitSteps::len_none))]
fn digits_len(text: &[u8], base: u8) -> usize
    ensures value { result ≡ reading.digits_len base text.now }
    ensures within { result ≤ length text.now }
{
    if !starts_digit(text, base) {
        return 0;
    }
    let mut at: usize = 1;
    while at < text.len() {
        if is_digit(text[at], base) {
            at += 1;
        } else if spaces(text, at, base) {
            at += 2;
        } else {
            return at;
        }
    }
    at
}

/// A number extended by one digit, if the result is below 2^64.
fn with_digit(value: u64, base: u8, byte: u8) -> Option<u64>
    ensures { BelowOrNone64 result (value * base + digit_value byte) }
{
    value
        .checked_mul(base as u64)?
        .checked_add(digit_value(byte) as u64)
}

/// The number denoted by digits and `_`, if it is below 2^64.
#[tactic(auto, using(crate::proofs::DigitSteps::value_at, crate::proofs::DigitSteps::value_grows, crate::proofs::DigitSteps::value_all, crate::proofs::DigitSteps::not_under))]
fn value_of(text: &[u8], base: u8) -> Option<u64>
    requires { 0 < base }
    ensures { BelowOrNone64 result (reading.value_of base 0 text.now) }
{
    let mut value: u64 = 0;
    for b in text {
        if *b != b'_' {
            value = with_digit(value, base, *b)?;
        }
    }
    Some(value)
}

/// The base of the number at the front, and the length of its prefix.
#[tactic(auto, unfolding(crate::specs::Reading::base_at))]
fn base_at(text: &[u8]) -> (u8, usize)
    ensures value { result ≡ reading.base_at text.now }
    ensures within { result.1 ≤ length text.now }
    ensures some { 0 < result.0 }
{
    if text.starts_with(b"0x") && starts_digit(&text[2..], 16) {
        (16, 2)
    } else if text.starts_with(b"0b") && starts_digit(&text[2..], 2) {
        (2, 2)
    } else {
        (10, 0)
    }
}

/// The number at the front of a text that begins with a digit.
#[tactic(auto, unfolding(crate::specs::Reading::number_at))]
pub fn number_at(text: &[u8]) -> Result<(Found, usize), LexStop>
    ensures value { result ≡ reading.number_at text.now }
    ensures within { IfOk result (λ r. r.1 ≤ length text.now) }
    ensures short { IfErr result (StopWithin (length text.now)) }
{
    let (base, skip) = base_at(text);
    let n = digits_len(&text[skip..], base);
    if is_joined(&text[skip + n..]) {
        return Err(LexStop::BadNumber);
    }
    match value_of(&text[skip..skip + n], base) {
        Some(value) => Ok((Found::Token(TokenKind::Number(value)), skip + n)),
        None => Err(LexStop::BadNumber),
    }
}
