//! What the actors know, and the messages waiting for them.
ghost use Rattle.std.specs.Prelude.{◌≡◌, ◌+◌, ◌<◌, ◌≤◌, ◌^◌, ◌++◌, ◌∷◌, [], max, length, drop, slice_get, IsSomeAnd, IfSome, OnOk, IfOk};
ghost use Rattle.pc_clocks.specs.Seats.{Advanced, ChangedAt, clock_of, number};

use crate::seat::{Seat, act, empty_seat, new_seat, receive};
use pc_base::List;
use std::alloc::{AllocError, Global};
use std::marker::Model;

/// The clocks of the actors, in the order in which they were made, and those of the messages waiting for them.
#[derive(Drop)]
pub struct Seats {
    all: Vec<Seat>,
}

impl Model for Seats {
    ghost use Rattle.std.specs.Prelude.{List as Sequence};
    ghost use Rattle.pc_clocks.specs.declared.seat.Seat.{Seat};

    ghost Value = { Sequence Seat };

    ghost view = { λ s. s.all.items };
}

impl Seats {
    /// No actors. Does not allocate.
    pub fn new(alloc: Global) -> Seats
        ensures { result ≡ [] }
    {
        Seats {
            all: Vec::new(alloc),
        }
    }

    /// Appends an actor for which no message waits.
    pub fn add_idle(&mut self, alloc: Global) -> Result<(), AllocError>
        ensures { OnOk result (self.new ≡ self.old ++ record { clock = []; letters = [] } ∷ []) }
    {
        self.all.push(empty_seat(alloc))?;
        Ok(())
    }

    /// Appends an actor for which a message with this clock waits.
    pub fn add_waiting(&mut self, alloc: Global, letter: List<u64>) -> Result<(), AllocError>
        ensures { OnOk result (self.new ≡ self.old ++ record { clock = []; letters = letter ∷ [] } ∷ []) }
    {
        self.all.push(new_seat(alloc, letter)?)?;
        Ok(())
    }

    /// An actor does something without taking a message. `count` is the number of actors.
    pub fn act(&mut self, count: usize, actor: usize) -> Result<(), AllocError>
        requires there { actor < count }
        requires seat { IsSomeAnd (slice_get self.old actor) (λ s. (length s.clock ≤ count) × (number s.clock actor + 1 < 2 ^ 64)) }
        ensures { OnOk result (ChangedAt self.old self.new actor (λ s t. Advanced count actor s.clock [] t.clock × (t.letters ≡ s.letters))) }
    {
        act_at(&mut self.all, count, actor)
    }

    /// An actor takes its oldest message. `count` is the number of actors.
    pub fn receive(&mut self, count: usize, actor: usize) -> Result<(), AllocError>
        requires there { actor < count }
        requires seat { IsSomeAnd (slice_get self.old actor) (λ s. (length s.clock ≤ count) × (number s.clock actor + 1 < 2 ^ 64) × IsSomeAnd (slice_get s.letters 0) (λ l. (length l ≤ count) × (number l actor + 1 < 2 ^ 64))) }
        ensures { OnOk result (ChangedAt self.old self.new actor (λ s t. IfSome (slice_get s.letters 0) (λ l. Advanced count actor s.clock l t.clock) × (t.letters ≡ drop 1 s.letters))) }
    {
        receive_at(&mut self.all, count, actor)
    }

    /// A copy of an actor's clock, empty if there is no such actor.
    pub fn clock(&self, alloc: Global, actor: usize) -> Result<List<u64>, AllocError>
        ensures { IfOk result (λ clock. clock ≡ clock_of self.now actor) }
    {
        match self.all.get(actor) {
            Some(seat) => List::from_slice(alloc, seat.clock.as_slice()),
            None => Ok(List::new(alloc)),
        }
    }

    /// A message to an actor, with its sender's clock.
    pub fn send(&mut self, alloc: Global, sender: usize, receiver: usize) -> Result<(), AllocError>
        requires { receiver < length self.old }
        ensures { OnOk result (ChangedAt self.old self.new receiver (λ s t. (t.clock ≡ s.clock) × (t.letters ≡ s.letters ++ clock_of self.old sender ∷ []))) }
    {
        let letter = self.clock(alloc, sender)?;
        put_at(&mut self.all, receiver, letter)
    }

    /// A new actor, with a message that carries the clock of its maker.
    pub fn spawn(&mut self, alloc: Global, maker: usize) -> Result<(), AllocError>
        ensures { OnOk result (self.new ≡ self.old ++ record { clock = []; letters = clock_of self.old maker ∷ [] } ∷ []) }
    {
        let letter = self.clock(alloc, maker)?;
        self.add_waiting(alloc, letter)
    }
}

// An actor of this list does something.
fn act_at(all: &mut Vec<Seat>, count: usize, actor: usize) -> Result<(), AllocError>
    requires there { actor < count }
    requires seat { IsSomeAnd (slice_get all.old.items actor) (λ s. (length s.clock ≤ count) × (number s.clock actor + 1 < 2 ^ 64)) }
    ensures { OnOk result (ChangedAt all.old.items all.new.items actor (λ s t. Advanced count actor s.clock [] t.clock × (t.letters ≡ s.letters))) }
{
    let seat = &mut all[actor];
    act(seat, count, actor)
}

// An actor of this list takes its oldest message.
fn receive_at(all: &mut Vec<Seat>, count: usize, actor: usize) -> Result<(), AllocError>
    requires there { actor < count }
    requires seat { IsSomeAnd (slice_get all.old.items actor) (λ s. (length s.clock ≤ count) × (number s.clock actor + 1 < 2 ^ 64) × IsSomeAnd (slice_get s.letters 0) (λ l. (length l ≤ count) × (number l actor + 1 < 2 ^ 64))) }
    ensures { OnOk result (ChangedAt all.old.items all.new.items actor (λ s t. IfSome (slice_get s.letters 0) (λ l. Advanced count actor s.clock l t.clock) × (t.letters ≡ drop 1 s.letters))) }
{
    let seat = &mut all[actor];
    receive(seat, count, actor)
}

// Adds a message for an actor of this list.
fn put_at(all: &mut Vec<Seat>, receiver: usize, letter: List<u64>) -> Result<(), AllocError>
    requires { receiver < length all.old.items }
    ensures { OnOk result (ChangedAt all.old.items all.new.items receiver (λ s t. (t.clock ≡ s.clock) × (t.letters ≡ s.letters ++ letter ∷ []))) }
{
    let seat = &mut all[receiver];
    seat.letters.put(letter)
}
