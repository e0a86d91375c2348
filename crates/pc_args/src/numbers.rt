//! Numbers among the words, read from texts.
ghost use Rattle.std.specs.Prelude.{◌<◌, ◌^◌};
ghost use Rattle.pc_args.specs.Line.{IsNumber, IsSeed, IsSize};
ghost use Rattle.pc_args.specs.Numbers.{Reads};

/// The greatest number of digits of a seed.
const SEED_DIGITS: usize = 20;

/// The greatest number of digits of a size.
const SIZE_DIGITS: usize = 3;

/// The largest size.
const LARGEST: u64 = 900;

/// The number that a text denotes with at least one digit and at most this many, if it is below 2^64.
pub fn number_of(text: &str, most: usize) -> Option<u64>
    ensures { Reads (λ n. IsNumber most text.now n × (n < 2 ^ 64)) result }
{
    match text.as_bytes() {
        [b'+', ..] => None,
        bytes if bytes.len() > most => None,
        _ => text.parse::<u64>().ok(),
    }
}

/// The seed that a text denotes: one to twenty digits, of a number below 2^64.
pub fn seed_of(text: &str) -> Option<u64>
    ensures { Reads (IsSeed text.now) result }
{
    number_of(text, SEED_DIGITS)
}

/// The size that a text denotes: one to three digits, of a number from 1 to 900.
pub fn size_of(text: &str) -> Option<u32>
    ensures { Reads (IsSize text.now) result }
{
    let size = number_of(text, SIZE_DIGITS)?;
    if size < 1 || size > LARGEST {
        return None;
    }
    Some(size as u32)
}
