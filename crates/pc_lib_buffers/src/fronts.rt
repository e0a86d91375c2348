//! How a line begins.
ghost use Rattle.std.specs.Prelude.{◌≡◌, decimal, option_map, is_some};
ghost use Rattle.pc_deriv.specs.Reading as reading;
ghost use Rattle.pc_lib_buffers.specs.Fronts as fronts;

use itoa::Buffer;

// What follows this front.
#[tactic(auto, unfolding(pc_deriv::specs::Reading::after_bytes))]
fn after<'a>(text: &'a [u8], front: &[u8]) -> Option<&'a [u8]>
    ensures { option_map (λ r. r.now) result ≡ reading.after_bytes front.now text.now }
{
    if text.starts_with(front) {
        Some(&text[front.len()..])
    } else {
        None
    }
}

/// What follows a word and a colon.
#[tactic(auto, unfolding(crate::specs::Fronts::after_word))]
pub fn after_word<'a>(text: &'a [u8], word: &[u8]) -> Option<&'a [u8]>
    ensures { option_map (λ r. r.now) result ≡ fronts.after_word word.now text.now }
{
    let rest = after(text, word)?;
    after(rest, b":")
}

// What follows a number and a colon.
fn after_number(text: &[u8], number: usize) -> Option<&[u8]>
    ensures { option_map (λ r. r.now) result ≡ fronts.after_word (decimal number) text.now }
{
    let mut digits = Buffer::new();
    after_word(text, digits.format(number).as_bytes())
}

// What follows the numbers of a line and of a column, each with a colon, and a blank.
#[tactic(auto, unfolding(crate::specs::Fronts::after_numbers))]
fn after_numbers(text: &[u8], line: usize, column: usize) -> Option<&[u8]>
    ensures { option_map (λ r. r.now) result ≡ fronts.after_numbers line column text.now }
{
    let rest = after_number(text, line)?;
    let rest = after_number(rest, column)?;
    after(rest, b" ")
}

/// Whether the text begins with a number and a colon.
#[tactic(auto, using(crate::proofs::Options::some_of_mapped))]
pub fn has_number(text: &[u8], number: usize) -> bool
    ensures { result ≡ is_some (fronts.after_word (decimal number) text.now) }
{
    after_number(text, number).is_some()
}

/// Whether the text begins with the numbers of a line and of a column, each with a colon, and a blank.
#[tactic(auto, using(crate::proofs::Options::some_of_mapped))]
pub fn has_numbers(text: &[u8], line: usize, column: usize) -> bool
    ensures { result ≡ is_some (fronts.after_numbers line column text.now) }
{
    after_numbers(text, line, column).is_some()
}
