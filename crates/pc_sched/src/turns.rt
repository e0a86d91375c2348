//! A word as turns: an actor's number, and how often it is that actor's turn.
ghost use Rattle.std.specs.Prelude.{◌≡◌, ◌≤◌, ◌+◌, ◌-◌, ◌*◌, length, true};
ghost use Rattle.std.specs.List.{prefix_len, list_all};
ghost use Rattle.pc_sched.specs.Schedules as schedules;
ghost use Rattle.std.specs.Char.{is_ascii_digit};
ghost use Rattle.pc_sched.specs.Reading as reading;
ghost use Rattle.pc_sched.specs.Reading.{BelowOrNone32};

/// This number of turns of one actor, one after the other.
#[derive(Clone, Copy, Debug, PartialEq, Eq)]
pub struct Turn {
    /// The actor's number.
    pub actor: u32,
    /// How many turns it takes.
    pub times: u32,
}

/// The greatest number of digits of a number.
const MOST_DIGITS: usize = 10;

/// The number of bytes at the front that are digits.
fn digits_len(text: &[u8]) -> usize
    ensures value { result ≡ prefix_len is_ascii_digit text.now }
    ensures within { result ≤ length text.now }
{
    let mut n = 0;
    while n < text.len() && text[n].is_ascii_digit() {
        n += 1;
    }
    n
}

/// A number extended by one digit, if the result is below 2^32.
fn with_digit(value: u32, byte: u8) -> Option<u32>
    requires { is_ascii_digit byte ≡ true }
    ensures { BelowOrNone32 result (value * 10 + (byte - 48)) }
{
    value.checked_mul(10)?.checked_add((byte - b'0') as u32)
}

/// The number denoted by some digits, if it is below 2^32.
#[tactic(auto, using(crate::proofs::Values::value_at, crate::proofs::Values::value_all, crate::proofs::Values::value_grows))]
fn value_of(digits: &[u8]) -> Option<u32>
    requires { list_all is_ascii_digit digits.now ≡ true }
    ensures { BelowOrNone32 result (schedules.decimal_value 0 digits.now) }
{
    let mut value: u32 = 0;
    for b in digits {
        value = with_digit(value, *b)?;
    }
    Some(value)
}

/// The number that a text spells with one to ten digits, if it is below 2^32.
#[tactic(auto, using(crate::proofs::Runs::run_whole), unfolding(crate::specs::Reading::number_of))]
fn number_of(text: &[u8]) -> Option<u32>
    ensures { result ≡ reading.number_of text.now }
{
    if text.is_empty() || text.len() > MOST_DIGITS || digits_len(text) < text.len() {
        return None;
    }
    value_of(text)
}

/// The turn that a word spells, if it is one.
#[tactic(auto, unfolding(crate::specs::Reading::turn_of))]
pub fn turn_of(word: &[u8]) -> Option<Turn>
    ensures { result ≡ reading.turn_of word.now }
{
    let n = digits_len(word);
    let actor = number_of(&word[..n])?;
    let times = match &word[n..] {
        [] => 1,
        [b'*', rest @ ..] => number_of(rest)?,
        _ => return None,
    };
    Some(Turn { actor, times })
}
