//! The numbers of objects, by maker and serial.
ghost use Rattle.std.specs.Prelude.{◌≡◌, ℕ, ◌<◌, [], ◌∷◌, ◌++◌, OnOk, IsSome, slice_get, length, cond, nat_eq};
ghost use Rattle.pc_heap.specs.Rows.{row_at, numbers_of, spare_of};

use std::alloc::{AllocError, Global};
use std::collections::HashMap;
use std::marker::Model;

/// The numbers of one maker's objects, in the order of their serials.
#[derive(Drop)]
pub struct Row {
    numbers: Vec<u32>,
}

impl Model for Row {
    ghost use Rattle.std.specs.Prelude.{◌-◌};
    ghost use Rattle.pc_heap.specs.Rows.{RowData, row_data, coded_row};

    ghost Value = { RowData };

    ghost coded = { coded_row };

    ghost view = { λ row. row_data row.numbers.items (row.numbers.cap - row.numbers.len) };
}

impl Row {
    fn new(alloc: Global) -> Row
        ensures { result.numbers ≡ [] }
    {
        Row {
            numbers: Vec::new(alloc),
        }
    }

    fn len(&self) -> usize
        ensures { result ≡ length self.now.numbers }
    {
        self.numbers.len()
    }

    fn get(&self, serial: u32) -> Option<u32>
        ensures { result ≡ slice_get self.now.numbers serial }
    {
        self.numbers.get(serial as usize).copied()
    }

    fn reserve(&mut self) -> Result<(), AllocError>
        ensures numbers { self.new.numbers ≡ self.old.numbers }
        ensures ok { OnOk result (0 < self.new.spare) }
    {
        self.numbers.reserve(1)
    }

    fn push(&mut self, number: u32)
        requires { 0 < self.old.spare }
        ensures { self.new.numbers ≡ self.old.numbers ++ number ∷ [] }
    {
        match self.numbers.push(number) {
            Ok(()) => {}
            Err(_) => unreachable!(),
        }
    }
}

/// Which objects each maker has made. A maker's row is looked up by hash.
#[derive(Drop)]
pub struct Rows {
    found: HashMap<u32, Row>,
    alloc: Global,
}

impl Model for Rows {
    ghost use Rattle.std.specs.Coded.{coded×, coded_list, coded_ℕ};
    ghost use Rattle.pc_heap.specs.Rows.{RowList, coded_row};

    ghost Value = { RowList };

    ghost coded = { coded_list (coded× coded_ℕ coded_row) };

    ghost view = { λ rows. rows.found.entries };
}

impl Rows {
    /// No rows. It cannot run out of memory.
    pub fn new(alloc: Global) -> Rows
        ensures { result ≡ [] }
    {
        Rows {
            found: HashMap::new(alloc),
            alloc,
        }
    }

    /// How many objects a maker has made.
    pub fn count(&self, maker: u32) -> usize
        ensures { result ≡ length (numbers_of self.now maker) }
    {
        match self.found.get(&maker) {
            Some(row) => row.len(),
            None => 0,
        }
    }

    /// The number of the object with a serial.
    pub fn get(&self, maker: u32, serial: u32) -> Option<u32>
        ensures { result ≡ slice_get (numbers_of self.now maker) serial }
    {
        match self.found.get(&maker) {
            Some(row) => row.get(serial),
            None => None,
        }
    }

    /// Gives a maker a row if it has none.
    fn begin(&mut self, maker: u32) -> Result<(), AllocError>
        ensures numbers { (other : ℕ) → numbers_of self.new other ≡ numbers_of self.old other }
        ensures ok { OnOk result (IsSome (row_at self.new maker)) }
    {
        if self.found.contains_key(&maker) {
            return Ok(());
        }
        self.found.insert(maker, Row::new(self.alloc))?;
        Ok(())
    }

    /// Makes room in the row of a maker.
    fn widen(&mut self, maker: u32) -> Result<(), AllocError>
        requires { IsSome (row_at self.old maker) }
        ensures numbers { (other : ℕ) → numbers_of self.new other ≡ numbers_of self.old other }
        ensures ok { OnOk result (0 < spare_of self.new maker) }
    {
        match self.found.get_mut(&maker) {
            Some(row) => row.reserve(),
            None => unreachable!(),
        }
    }

    /// Makes room for one more object of a maker.
    pub fn reserve(&mut self, maker: u32) -> Result<(), AllocError>
        ensures numbers { (other : ℕ) → numbers_of self.new other ≡ numbers_of self.old other }
        ensures ok { OnOk result (0 < spare_of self.new maker) }
    {
        self.begin(maker)?;
        self.widen(maker)
    }

    /// Records one more object of a maker. It cannot run out of memory.
    pub fn push(&mut self, maker: u32, number: u32)
        requires { 0 < spare_of self.old maker }
        ensures { (other : ℕ) → numbers_of self.new other ≡ cond (nat_eq maker other) (numbers_of self.old maker ++ number ∷ []) (numbers_of self.old other) }
    {
        match self.found.get_mut(&maker) {
            Some(row) => row.push(number),
            None => unreachable!(),
        }
    }
}
