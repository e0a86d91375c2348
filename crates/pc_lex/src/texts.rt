//! Text literals and docs: where they end, and the bytes that they denote.
ghost use Rattle.std.specs.Prelude.{◌≡◌, ◌<◌, ◌≤◌, ◌+◌, length, drop, true, IfSome, IfOk, IfErr};
ghost use Rattle.std.specs.Option.{option_map};
ghost use Rattle.pc_lex.specs.Pieces.{Written};
ghost use Rattle.pc_lex.specs.Pieces as spec;
ghost use Rattle.pc_lex.specs.TextReading as reading;
ghost use Rattle.pc_lex.specs.EscapeFaults.{IsBadEscape, GivesValue};

use crate::numbers::{digit_value, is_digit};
use pc_base::List;
use std::alloc::{AllocError, Global};

/// Why the bytes between the quotes of a text literal denote no value.
#[derive(Debug)]
pub enum EscapeFault {
    /// The place of a `\` that begins no escape.
    BadEscape(usize),
    /// Memory ran out.
    Memory,
}

impl From<AllocError> for EscapeFault {
    ghost use Rattle.pc_lex.specs.declared.texts.EscapeFault.TheVariants.{Memory};

    ghost from_gives = { λ _ e. e ≡ Memory };

    fn from(_: AllocError) -> EscapeFault {
        EscapeFault::Memory
    }
}

/// The length of a byte together with the byte it escapes, if any.
fn width(byte: u8) -> usize
    ensures value { result ≡ reading.width byte }
    ensures some { 1 ≤ result }
    ensures most { result ≤ 2 }
{
    if byte == b'\\' { 2 } else { 1 }
}

/// The number of bytes before the next `"` that is not escaped by a `\`.
#[tactic(auto, using(crate::proofs::QuoteEnds::behind_step, crate::proofs::QuoteEnds::behind_none))]
pub fn quote_len(text: &[u8]) -> Option<usize>
    ensures value { option_map (λ n. drop (n + 1) text.now) result ≡ reading.text_behind text.now }
    ensures within { IfSome result (λ n. n < length text.now) }
{
    let mut at: usize = 0;
    while at < text.len() {
        if text[at] == b'"' {
            return Some(at);
        }
        at += width(text[at]);
    }
    None
}

/// Whether a byte of a text literal denotes itself.
fn is_plain(byte: u8) -> bool
    ensures { result ≡ spec.is_plain byte }
{
    byte != b'"' && byte != b'\\'
}

/// What a letter after `\` denotes.
fn escape_of(byte: u8) -> Option<u8>
    ensures { result ≡ spec.escape_of byte }
{
    match byte {
        b'n' => Some(b'\n'),
        b'r' => Some(b'\r'),
        b't' => Some(b'\t'),
        b'\\' => Some(b'\\'),
        b'"' => Some(b'"'),
        b'0' => Some(0),
        _ => None,
    }
}

/// The byte that an escape denotes, given without its `\`, and the length with it.
fn escape_at(text: &[u8]) -> Option<(u8, usize)>
    ensures value { result ≡ reading.escape_here text.now }
    ensures within { IfSome result (λ r. (0 < r.1) × (r.1 ≤ length text.now + 1)) }
{
    let (name, rest) = match text {
        [name, rest @ ..] => (*name, rest),
        [] => return None,
    };
    if let Some(b) = escape_of(name) {
        return Some((b, 2));
    }
    match rest {
        [high, low, ..] if name == b'x' && is_digit(*high, 16) && is_digit(*low, 16) => {
            Some((digit_value(*high) * 16 + digit_value(*low), 4))
        }
        _ => None,
    }
}

/// The byte of the value that is spelled at the front, and the length of its spelling.
#[tactic(auto, unfolding(crate::specs::TextReading::byte_at))]
fn byte_at(text: &[u8]) -> Option<(u8, usize)>
    ensures value { result ≡ reading.byte_at text.now }
    ensures within { IfSome result (λ r. (0 < r.1) × (r.1 ≤ length text.now)) }
{
    match text {
        [b, ..] if is_plain(*b) => Some((*b, 1)),
        [b'\\', rest @ ..] => escape_at(rest),
        _ => None,
    }
}

/// The value of the bytes between the quotes of a text literal.
fn unescape(alloc: Global, body: &[u8]) -> Result<List<u8>, EscapeFault>
    ensures ok { IfOk result (λ value. Written body.now value) }
    ensures err { IfErr result (λ fault. IsBadEscape body.now fault) }
{
    let mut bytes: List<u8> = List::new(alloc);
    let mut at: usize = 0;
    while at < body.len() {
        let (b, n) = match byte_at(&body[at..]) {
            Some(found) => found,
            None => return Err(EscapeFault::BadEscape(at)),
        };
        bytes.push(b)?;
        at += n;
    }
    Ok(bytes)
}

/// The value of the bytes between the quotes of a text literal, as the definition reads it.
#[tactic(auto, using(crate::proofs::TextValues::gives_value, crate::proofs::TextValues::bad_within))]
pub fn text_value(alloc: Global, body: &[u8]) -> Result<List<u8>, EscapeFault>
    ensures value { GivesValue result (reading.unescape body.now) }
    ensures within { IfErr result (reading.EscapeWithin (length body.now)) }
{
    unescape(alloc, body)
}

/// Whether a text begins with `"""`.
#[tactic(auto, unfolding(crate::specs::Pieces::begins_doc))]
pub fn begins_doc(text: &[u8]) -> bool
    ensures value { result ≡ spec.begins_doc text.now }
    ensures within { result ≡ true → 3 ≤ length text.now }
{
    text.starts_with(b"\"\"\"")
}

/// The number of bytes before the next `"""`.
#[tactic(auto, using(crate::proofs::DocEnding::doc_step, crate::proofs::DocEnding::doc_none, std::proofs::lemmas::List::take_rest))]
pub fn doc_len(text: &[u8]) -> Option<usize>
    ensures value { option_map (λ n. drop (n + 3) text.now) result ≡ reading.doc_behind text.now }
    ensures within { IfSome result (λ n. n + 3 ≤ length text.now) }
{
    let mut at: usize = 0;
    while at < text.len() {
        if begins_doc(&text[at..]) {
            return Some(at);
        }
        at += 1;
    }
    None
}
