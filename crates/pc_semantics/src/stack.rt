//! The values that a frame works on, with the last one on top.
ghost use Rattle.std.specs.Prelude.{◌≡◌, ◌-◌, ◌<◌, ◌≤◌, ◌↔◌, ◌∷◌, [], length, take, drop, reverse, slice_get, slice_set, option_copied, Some, IsSome, IfSome, OnOk, OnErr, IfErr};

use std::alloc::{AllocFailed, Global};
use std::marker::Model;
use std::mem;

/// A stack. Contracts see it as a list, the top first.
#[derive(Debug, Drop)]
pub struct Stack<T> {
    items: Vec<T>,
}

impl<T> Model for Stack<T> {
    ghost use Rattle.std.specs.Prelude.{List as Sequence, reverse};

    ghost Value = { Sequence T };

    ghost view = { λ s. reverse s.items.items };
}

impl<T> Stack<T> {
    ghost use Rattle.std.specs.Borrow.{sem};
    ghost use Rattle.pc_semantics.specs.Lending.{lends_top};

    /// An empty stack. It does not allocate.
    pub fn new(alloc: Global) -> Stack<T>
        ensures { result ≡ [] }
    {
        Stack {
            items: Vec::new(alloc),
        }
    }

    /// How many values are on the stack.
    #[inline(always)]
    pub fn len(&self) -> usize
        ensures { result ≡ length self.now }
    {
        self.items.len()
    }

    /// Puts a value on top. An `Err` hands it back and changes nothing.
    #[inline(always)]
    pub fn push(&mut self, value: T) -> Result<(), AllocFailed<T>>
        ensures ok { OnOk result (self.new ≡ value ∷ self.old) }
        ensures err { OnErr result (self.new ≡ self.old) }
        ensures back { IfErr result (λ failed. failed.value ≡ value) }
    {
        self.items.push(value)
    }

    /// Takes the top off. `None` iff the stack is empty.
    #[inline(always)]
    pub fn pop(&mut self) -> Option<T>
        ensures value { result ≡ slice_get self.old 0 }
        ensures rest { self.new ≡ drop 1 self.old }
    {
        self.items.pop()
    }

    /// The top. `None` iff the stack is empty.
    #[inline(always)]
    pub fn top(&self) -> Option<&T>
        ensures { option_copied result ≡ slice_get self.now 0 }
    {
        self.items.last()
    }

    /// The top, which may be changed in place. It does not allocate.
    #[inline(always)]
    pub fn top_mut(&mut self) -> &mut T
        requires { 0 < length self.old }
        ensures* writes_back { sem 𝓛 (lends_top T.row self.entry result) }
        ensures value { slice_get self.old 0 ≡ Some result.now }
    {
        let place = self.items.len() - 1;
        &mut self.items[place]
    }

    /// The value at a place, counted from the top. `None` iff there is none.
    #[inline(always)]
    pub fn peek(&self, place: usize) -> Option<&T>
        ensures { option_copied result ≡ slice_get self.now place }
    {
        let count = self.items.len();
        if place < count {
            self.items.get(count - 1 - place)
        } else {
            None
        }
    }

    /// Replaces the top, and returns the old one. It does not allocate.
    #[inline(always)]
    pub fn replace_top(&mut self, value: T) -> T
        requires { 0 < length self.old }
        ensures new { self.new ≡ value ∷ drop 1 self.old }
        ensures top { slice_get self.old 0 ≡ Some result }
    {
        replace_last(&mut self.items, value)
    }

    /// Replaces the value at a place, counted from the top, and returns the old one. It does not allocate.
    pub fn replace(&mut self, place: usize, value: T) -> T
        requires { place < length self.old }
        ensures new { self.new ≡ slice_set self.old place value }
        ensures old { slice_get self.old place ≡ Some result }
    {
        replace_from_end(&mut self.items, place, value)
    }

    /// The topmost `count` values, the deepest of them first. `None` iff there are fewer.
    pub fn topmost(&self, count: usize) -> Option<&[T]>
        ensures enough { IsSome result ↔ (count ≤ length self.now) }
        ensures values { IfSome result (λ values. values.now ≡ reverse (take count self.now)) }
    {
        if count <= self.items.len() {
            Some(last_values(self.items.as_slice(), count))
        } else {
            None
        }
    }
}

impl<T: Drop> Stack<T> {
    /// Drops the topmost `count` values, or all if there are fewer. It does not allocate.
    pub fn discard(&mut self, count: usize)
        ensures { self.new ≡ drop count self.old }
    {
        let kept = self.items.len().saturating_sub(count);
        self.items.truncate(kept);
    }
}

// The last `count` values of a list.
fn last_values<T>(items: &[T], count: usize) -> &[T]
    requires { count ≤ length items.now }
    ensures { result.now ≡ drop (length items.now - count) items.now }
{
    &items[items.len() - count..]
}

// Replaces the last value, and returns the old one.
#[inline(always)]
fn replace_last<T>(items: &mut Vec<T>, value: T) -> T
    requires { 0 < length items.old.items }
    ensures new { items.new.items ≡ slice_set items.old.items (length items.old.items - 1) value }
    ensures last { slice_get items.old.items (length items.old.items - 1) ≡ Some result }
{
    let place = items.len() - 1;
    mem::replace(&mut items[place], value)
}

// Replaces the value at a place, counted from the end, and returns the old one.
fn replace_from_end<T>(items: &mut Vec<T>, place: usize, value: T) -> T
    requires { place < length items.old.items }
    ensures new { items.new.items ≡ slice_set items.old.items (length items.old.items - 1 - place) value }
    ensures old { slice_get items.old.items (length items.old.items - 1 - place) ≡ Some result }
{
    let place = items.len() - 1 - place;
    mem::replace(&mut items[place], value)
}
