//! What one actor knows.
ghost use Rattle.std.specs.Prelude.{◌≡◌, ◌+◌, ◌<◌, ◌≤◌, ◌^◌, ◌++◌, ◌∷◌, [], max, length, drop, slice_get, get_or, IsSomeAnd, IfSome, OnOk, IfOk, OnErr};
ghost use Rattle.pc_clocks.specs.Seats.{Advanced, number};

use crate::clock::advance;
use crate::letters::Letters;
use pc_base::List;
use std::alloc::{AllocError, Global};

/// An actor's clock, and those of the messages waiting for it.
#[derive(Drop)]
pub struct Seat {
    pub clock: List<u64>,
    pub letters: Letters,
}

/// An actor that has done nothing yet and for which no message waits. Does not allocate.
pub fn empty_seat(alloc: Global) -> Seat
    ensures { result ≡ record { clock = []; letters = [] } }
{
    Seat {
        clock: List::new(alloc),
        letters: Letters::new(alloc),
    }
}

/// An actor that has done nothing yet and for which a message with this clock waits.
pub fn new_seat(alloc: Global, letter: List<u64>) -> Result<Seat, AllocError>
    ensures { IfOk result (λ seat. seat ≡ record { clock = []; letters = letter ∷ [] }) }
{
    let mut letters = Letters::new(alloc);
    letters.put(letter)?;
    let clock = List::new(alloc);
    Ok(Seat { clock, letters })
}

/// The actor does something without taking a message.
pub fn act(seat: &mut Seat, count: usize, actor: usize) -> Result<(), AllocError>
    requires there { actor < count }
    requires clock { length seat.old.clock ≤ count }
    requires small { number seat.old.clock actor + 1 < 2 ^ 64 }
    ensures clock { OnOk result (Advanced count actor seat.old.clock [] seat.new.clock) }
    ensures letters { OnOk result (seat.new.letters ≡ seat.old.letters) }
{
    advance(&mut seat.clock, &[], count, actor)
}

/// The actor takes its oldest message.
pub fn receive(seat: &mut Seat, count: usize, actor: usize) -> Result<(), AllocError>
    requires there { actor < count }
    requires clock { length seat.old.clock ≤ count }
    requires small { number seat.old.clock actor + 1 < 2 ^ 64 }
    requires waits { IsSomeAnd (slice_get seat.old.letters 0) (λ l. (length l ≤ count) × (number l actor + 1 < 2 ^ 64)) }
    ensures clock { OnOk result (IfSome (slice_get seat.old.letters 0) (λ l. Advanced count actor seat.old.clock l seat.new.clock)) }
    ensures letters { OnOk result (seat.new.letters ≡ drop 1 seat.old.letters) }
{
    match seat.letters.take() {
        Some(letter) => advance(&mut seat.clock, letter.as_slice(), count, actor),
        None => unreachable!(),
    }
}
