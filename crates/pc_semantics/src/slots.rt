//! The slots of a frame.
ghost use Rattle.std.specs.Prelude.{◌≡◌, ◌++◌, ◌⊎◌, ◌<◌, ◌≤◌, None, Some, length, replicate, slice_get, slice_set, MatchOption, IfOk, OnErr, IfErr, OnOk};
ghost use Rattle.std.specs.Option.{option_flatten};

use pc_heap::Value;
use std::alloc::{AllocError, AllocFailed};
use std::marker::Model;
use std::mem;

/// The contents of a frame's slots, the slot of `this` first. Contracts see them as a list with a place for each slot;
/// one that holds nothing is empty.
///
/// The empty slots after the last one that ever held something need no memory.
#[derive(Debug, Drop)]
pub struct Slots {
    held: Vec<Option<Value>>,
    // How many empty slots follow.
    empty: usize,
}

impl Model for Slots {
    ghost use Rattle.std.specs.Prelude.{List as Sequence, ◌++◌, Option, None, replicate};
    ghost use Rattle.pc_heap.specs.declared.value.Value.{Value as Held};

    ghost Value = { Sequence (Option Held) };

    ghost view = { λ slots. slots.held.items ++ replicate slots.empty None };
}

impl Slots {
    /// Slots that hold these values, followed by `empty` empty ones. It does not allocate.
    pub fn new(held: Vec<Option<Value>>, empty: usize) -> Slots
        ensures { result ≡ held.items ++ replicate empty None }
    {
        Slots { held, empty }
    }

    /// The value in a slot. `None` iff the slot is empty or there is no slot with this number.
    #[inline(always)]
    pub fn get(&self, slot: usize) -> Option<&Value>
        ensures { MatchOption result ((slice_get self.now slot ≡ None) ⊎ (slice_get self.now slot ≡ Some None)) (λ value. slice_get self.now slot ≡ Some (Some value.now)) }
    {
        match self.held.get(slot) {
            Some(Some(value)) => Some(value),
            Some(None) => None,
            None => None,
        }
    }

    /// Takes the value out of a slot. `None` iff the slot is empty or there is no slot with this number. It does not
    /// allocate.
    pub fn take(&mut self, slot: usize) -> Option<Value>
        ensures value { result ≡ option_flatten (slice_get self.old slot) }
        ensures rest { self.new ≡ slice_set self.old slot None }
    {
        if slot < self.held.len() {
            exchange(&mut self.held, slot, None)
        } else {
            None
        }
    }

    /// Puts a value into a slot, and returns the old one. If there is no slot with this number, nothing changes. An
    /// `Err` hands the value back and changes nothing.
    #[inline(always)]
    pub fn put(&mut self, slot: usize, value: Value) -> Result<Option<Value>, AllocFailed<Value>>
        ensures before { IfOk result (λ before. before ≡ option_flatten (slice_get self.old slot)) }
        ensures ok { OnOk result (self.new ≡ slice_set self.old slot (Some value)) }
        ensures err { OnErr result (self.new ≡ self.old) }
        ensures back { IfErr result (λ failed. failed.value ≡ value) }
    {
        match reach(&mut self.held, &mut self.empty, slot) {
            Ok(()) => Ok(put_held(&mut self.held, slot, value)),
            Err(_) => Err(AllocFailed { value }),
        }
    }
}

// Makes room for a value in this slot, if there is such a slot. The slots are unchanged, even if memory runs out.
fn reach(held: &mut Vec<Option<Value>>, empty: &mut usize, slot: usize) -> Result<(), AllocError>
    ensures same { held.new.items ++ replicate empty.new None ≡ held.old.items ++ replicate empty.old None }
    ensures room { OnOk result ((length held.new.items ≤ slot) → (empty.new ≡ 0)) }
{
    'room: while *empty > 0 && held.len() <= slot {
        held.push(None)?;
        *empty -= 1;
    }
    Ok(())
}

// Puts a value into a slot, if it is one of these, and returns the old one.
#[inline(always)]
fn put_held(held: &mut Vec<Option<Value>>, slot: usize, value: Value) -> Option<Value>
    ensures new { held.new.items ≡ slice_set held.old.items slot (Some value) }
    ensures old { result ≡ option_flatten (slice_get held.old.items slot) }
{
    if slot < held.len() {
        exchange(held, slot, Some(value))
    } else {
        None
    }
}

// Replaces the contents of a slot, and returns the old ones.
#[inline(always)]
fn exchange(held: &mut Vec<Option<Value>>, slot: usize, value: Option<Value>) -> Option<Value>
    requires { slot < length held.old.items }
    ensures new { held.new.items ≡ slice_set held.old.items slot value }
    ensures old { slice_get held.old.items slot ≡ Some result }
{
    mem::replace(&mut held[slot], value)
}
