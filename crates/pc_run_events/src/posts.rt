//! The places at which the messages that wait were sent.
ghost use Rattle.std.specs.Prelude.{◌≡◌, ◌<◌, ◌++◌, ◌∷◌, [], drop, length, slice_get, OnOk};
ghost use Rattle.pc_run_events.specs.Posts.{RowAt, first_of};

use std::alloc::{AllocError, Global};
use std::collections::VecDeque;
use std::marker::Model;

/// The places at which the messages that wait for an actor were sent, the oldest message's first. Places are counted
/// from 1; a message that no event sent has 0.
#[derive(Drop)]
pub struct Row {
    waiting: VecDeque<u64>,
}

impl Model for Row {
    ghost use Rattle.std.specs.Prelude.{ℕ, List as Sequence};

    ghost Value = { Sequence ℕ };

    ghost view = { λ r. r.waiting.items };
}

impl Row {
    // No message waits. It does not allocate.
    fn new(alloc: Global) -> Row
        ensures { result ≡ [] }
    {
        Row {
            waiting: VecDeque::new(alloc),
        }
    }

    // One more message, after the others.
    fn put(&mut self, place: u64) -> Result<(), AllocError>
        ensures { OnOk result (self.new ≡ self.old ++ place ∷ []) }
    {
        self.waiting.push_back(place)?;
        Ok(())
    }

    // The oldest message is removed. 0 if none waits.
    fn take(&mut self) -> u64
        ensures place { result ≡ first_of self.old }
        ensures rest { self.new ≡ drop 1 self.old }
    {
        match self.waiting.pop_front() {
            Some(place) => place,
            None => 0,
        }
    }
}

/// For each actor, the places at which the messages that wait for it were sent.
#[derive(Drop)]
pub struct Posts {
    all: Vec<Row>,
}

impl Model for Posts {
    ghost use Rattle.std.specs.Prelude.{ℕ, List as Sequence};

    ghost Value = { Sequence (Sequence ℕ) };

    ghost view = { λ p. p.all.items };
}

impl Posts {
    /// No actors. It does not allocate.
    pub fn new(alloc: Global) -> Posts
        ensures { result ≡ [] }
    {
        Posts {
            all: Vec::new(alloc),
        }
    }

    /// Appends an actor for which no message waits.
    pub fn add_idle(&mut self, alloc: Global) -> Result<(), AllocError>
        ensures { OnOk result (self.new ≡ self.old ++ [] ∷ []) }
    {
        self.all.push(Row::new(alloc))?;
        Ok(())
    }

    /// Appends an actor for which a message waits that was sent at this place.
    pub fn add_waiting(&mut self, alloc: Global, place: u64) -> Result<(), AllocError>
        ensures { OnOk result (self.new ≡ self.old ++ (place ∷ []) ∷ []) }
    {
        let mut row = Row::new(alloc);
        row.put(place)?;
        self.all.push(row)?;
        Ok(())
    }

    /// A message for an actor, sent at this place.
    pub fn put(&mut self, actor: usize, place: u64) -> Result<(), AllocError>
        requires { actor < length self.old }
        ensures { OnOk result (RowAt self.old self.new actor (λ s t. t ≡ s ++ place ∷ [])) }
    {
        put_at(&mut self.all, actor, place)
    }

    /// The oldest message of an actor is taken. Returns the place at which it was sent, or 0 if none waits.
    pub fn take(&mut self, actor: usize) -> u64
        requires { actor < length self.old }
        ensures { RowAt self.old self.new actor (λ s t. (result ≡ first_of s) × (t ≡ drop 1 s)) }
    {
        take_at(&mut self.all, actor)
    }
}

// A message for one of these.
fn put_at(all: &mut Vec<Row>, actor: usize, place: u64) -> Result<(), AllocError>
    requires { actor < length all.old.items }
    ensures { OnOk result (RowAt all.old.items all.new.items actor (λ s t. t ≡ s ++ place ∷ [])) }
{
    let row = &mut all[actor];
    row.put(place)
}

// The oldest message of one of these is removed.
fn take_at(all: &mut Vec<Row>, actor: usize) -> u64
    requires { actor < length all.old.items }
    ensures { RowAt all.old.items all.new.items actor (λ s t. (result ≡ first_of s) × (t ≡ drop 1 s)) }
{
    let row = &mut all[actor];
    row.take()
}
