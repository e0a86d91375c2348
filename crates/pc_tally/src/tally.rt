//! A list of numbers with its sums.
ghost use Rattle.std.specs.Prelude.{◌≡◌, ◌+◌, ◌<◌, ◌≤◌, ◌++◌, ◌∷◌, [], ◌^◌, length, take, slice_get, slice_set, slice_index, sum, IfNone, IfSome, Some, OnOk, OnErr};
ghost use Rattle.pc_tally.specs.Sums.{FallsOn};

use crate::levels::{GROUP, cover, exchange, place_from, sum_to};
use std::alloc::{AllocError, Global};
use std::marker::Model;

/// A list of numbers whose sum is below 2^32, with the sums of each 64 and of each 4,096 of them.
#[derive(Drop)]
pub struct Tally {
    numbers: Vec<u32>,
    groups: Vec<u32>,
    blocks: Vec<u32>,
    total: u32,
}

impl Model for Tally {
    ghost use Rattle.std.specs.Prelude.{ℕ, List as Sequence};
    ghost use Rattle.pc_tally.specs.Sums.{IsTally};

    ghost Value = { Sequence ℕ };

    ghost view = { λ t. t.numbers.items };

    ghost invariant = { λ t. IsTally t.numbers.items t.groups.items t.blocks.items t.total };
}

impl Tally {
    /// No numbers. Does not allocate.
    pub fn new(alloc: Global) -> Tally
        ensures { result ≡ [] }
    {
        Tally {
            numbers: Vec::new(alloc),
            groups: Vec::new(alloc),
            blocks: Vec::new(alloc),
            total: 0,
        }
    }

    /// The number of numbers.
    pub fn len(&self) -> usize
        ensures { result ≡ length self.now }
    {
        self.numbers.len()
    }

    /// The sum of all numbers.
    pub fn total(&self) -> u32
        ensures { result ≡ sum self.now }
    {
        self.total
    }

    /// The number at a place. `None` iff there is none.
    pub fn get(&self, place: u32) -> Option<u32>
        ensures { result ≡ slice_get self.now place }
    {
        self.numbers.get(place as usize).copied()
    }

    /// Appends a number. An `Err` changes nothing.
    pub fn push(&mut self, number: u32) -> Result<(), AllocError>
        requires room { length self.old < 2 ^ 32 }
        requires few { sum self.old + number < 2 ^ 32 }
        ensures ok { OnOk result (self.new ≡ self.old ++ number ∷ []) }
        ensures err { OnErr result (self.new ≡ self.old) }
    {
        let count = self.numbers.len();
        self.push_zero()?;
        self.exchange_at(count, 0, number);
        Ok(())
    }

    /// Replaces the number at a place.
    pub fn set(&mut self, place: u32, number: u32)
        requires there { place < length self.old }
        requires few { sum self.old + number < 2 ^ 32 + slice_index self.old place }
        ensures { self.new ≡ slice_set self.old place number }
    {
        let at = place as usize;
        let old = self.numbers[at];
        self.exchange_at(at, old, number);
    }

    /// The sum of the numbers before a place.
    pub fn rank(&self, end: u32) -> u32
        requires { end ≤ length self.now }
        ensures { result ≡ sum (take end self.now) }
    {
        let end = end as usize;
        let group = end / GROUP;
        let block = group / GROUP;
        let before = sum_to(&self.blocks, 0, block, 0);
        let before = sum_to(&self.groups, GROUP * block, group, before);
        sum_to(&self.numbers, GROUP * group, end, before)
    }

    /// The place at which the prefix sums pass `wanted`. `None` iff they never do.
    pub fn place_of(&self, wanted: u32) -> Option<u32>
        ensures none { IfNone result (sum self.now ≤ wanted) }
        ensures some { IfSome result (FallsOn self.now wanted) }
    {
        if wanted >= self.total {
            return None;
        }
        let (block, before) = place_from(&self.blocks, 0, 0, wanted);
        let (group, before) = place_from(&self.groups, GROUP * block, before, wanted);
        let (place, _) = place_from(&self.numbers, GROUP * group, before, wanted);
        Some(place as u32)
    }

    // Appends a 0.
    fn push_zero(&mut self) -> Result<(), AllocError>
        requires room { length self.old < 2 ^ 32 }
        ensures ok { OnOk result (self.new ≡ self.old ++ 0 ∷ []) }
        ensures err { OnErr result (self.new ≡ self.old) }
    {
        let groups = self.groups.len();
        cover(&mut self.blocks, groups + 1)?;
        let count = self.numbers.len();
        cover(&mut self.groups, count + 1)?;
        self.numbers.push(0)?;
        Ok(())
    }

    // Replaces the number at a place, which is `old`.
    fn exchange_at(&mut self, at: usize, old: u32, new: u32)
        requires there { slice_get self.old at ≡ Some old }
        requires few { sum self.old + new < 2 ^ 32 + old }
        ensures { self.new ≡ slice_set self.old at new }
    {
        exchange(&mut self.numbers, at, old, new);
        exchange(&mut self.groups, at / GROUP, old, new);
        exchange(&mut self.blocks, at / GROUP / GROUP, old, new);
        self.total = self.total - old + new;
    }
}
