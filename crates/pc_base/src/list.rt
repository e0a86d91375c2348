//! The list in which every layer keeps its values.
ghost use Rattle.std.specs.Option.{option_copied};
ghost use Rattle.std.specs.Prelude.{◌≡◌, [], ◌∷◌, ◌++◌, ◌<◌, ◌-◌, Some, length, take, slice_get, slice_set, ◌↔◌, IsTrue, IsSome, IfOk, OnOk, OnErr};

use std::alloc::{AllocError, Global};
use std::marker::Model;
use std::mem;

/// A sequence of values. Contracts see the sequence and nothing else.
///
/// A node of a tree may keep its children in one, since a recursive type may occur inside its own `List`.
#[derive(Debug, Drop)]
pub struct List<T> {
    row: Vec<T>,
}

impl<T> Model for List<T> {
    ghost use Rattle.std.specs.Coded.{coded_list};
    ghost use Rattle.std.specs.Prelude.{List as Sequence};

    ghost Value = { Sequence T };

    ghost view = { λ list. list.row.items };

    ghost coded = { coded_list T.code };
}

// A value for which there is no memory is dropped, and so are values that are cut off.
impl<T: Drop> List<T> {
    /// Appends a value. A refusal leaves the list as it was.
    pub fn push(&mut self, value: T) -> Result<(), AllocError>
        ensures ok { OnOk result (self.new ≡ self.old ++ value ∷ []) }
        ensures err { OnErr result (self.new ≡ self.old) }
    {
        // The room is asked for first, so that the value need not come back.
        self.row.reserve(1)?;
        self.row.push_reserved(value);
        Ok(())
    }

    /// Appends a value. If the list has no memory yet, it gets room for this many values and no more, where `push` makes
    /// room for several. A refusal leaves the list as it was.
    pub fn push_within(&mut self, room: usize, value: T) -> Result<(), AllocError>
        ensures ok { OnOk result (self.new ≡ self.old ++ value ∷ []) }
        ensures err { OnErr result (self.new ≡ self.old) }
    {
        begin_with_room(&mut self.row, room)?;
        self.push(value)
    }

    /// Keeps the first `len` values.
    pub fn truncate(&mut self, len: usize)
        ensures { self.new ≡ take len self.old }
    {
        self.row.truncate(len);
    }
}

impl<T> List<T> {
    /// Removes the value at the last place and returns it. An empty list has no last place, and stays empty.
    #[tactic(auto, using(crate::proofs::Lasts::last_of, crate::proofs::Lasts::before_last))]
    pub fn pop(&mut self) -> Option<T>
        ensures last { result ≡ slice_get self.old (length self.old - 1) }
        ensures front { self.new ≡ take (length self.old - 1) self.old }
    {
        self.row.pop()
    }

    /// Puts a value at a place, and returns the one that was there.
    pub fn replace(&mut self, place: usize, value: T) -> T
        requires { place < length self.old }
        ensures new { self.new ≡ slice_set self.old place value }
        ensures old { slice_get self.old place ≡ Some result }
    {
        exchange(&mut self.row, place, value)
    }

    /// The value at a place, if the place is below the length. Places are counted from 0.
    pub fn get(&self, place: usize) -> Option<&T>
        ensures placed { IsSome result ↔ (place < length self.now) }
        ensures found { option_copied result ≡ slice_get self.now place }
    {
        self.row.get(place)
    }

    /// Whether the length is 0.
    pub fn is_empty(&self) -> bool
        ensures { IsTrue result ↔ (length self.now ≡ 0) }
    {
        self.row.len() == 0
    }

    /// The number of values.
    pub fn len(&self) -> usize
        ensures { result ≡ length self.now }
    {
        self.row.len()
    }

    /// The values, in order.
    pub fn as_slice(&self) -> &[T]
        ensures { result.now ≡ self.now }
    {
        self.row.as_slice()
    }

    /// The vector of the list's values.
    pub fn into_vec(self) -> Vec<T>
        ensures { result.items ≡ self }
    {
        let List { row } = self;
        row
    }

    /// The list of a vector's values.
    pub fn from_vec(values: Vec<T>) -> List<T>
        ensures { result ≡ values.items }
    {
        List { row: values }
    }

    /// The empty list. Does not allocate.
    pub fn new(alloc: Global) -> List<T>
        ensures { result ≡ [] }
    {
        List::from_vec(Vec::new(alloc))
    }
}

impl<T: Copy> List<T> {
    /// A list of these values.
    pub fn from_slice(alloc: Global, values: &[T]) -> Result<List<T>, AllocError>
        ensures { IfOk result (λ list. list ≡ values.now) }
    {
        Ok(List::from_vec(Vec::from_slice(alloc, values)?))
    }
}

// Two lists are equal iff their values are, one by one.
impl<T: PartialEq> PartialEq for List<T> {
    ghost use Rattle.std.specs.Cmp.Lexicographic.{pointwise, lists_per};

    ghost eq = { λ x y. pointwise T.eq x y };

    ghost laws = { lists_per T.laws };

    fn eq(&self, other: &Self) -> bool {
        self.as_slice() == other.as_slice()
    }
}

// Makes room for exactly this many values, if there is room for none.
fn begin_with_room<T>(row: &mut Vec<T>, room: usize) -> Result<(), AllocError>
    ensures { row.new.items ≡ row.old.items }
{
    if row.capacity() == 0 {
        return row.reserve_exact(room);
    }
    Ok(())
}

// `List::replace`, on the vector that holds the values.
fn exchange<T>(row: &mut Vec<T>, place: usize, value: T) -> T
    requires { place < length row.old.items }
    ensures new { row.new.items ≡ slice_set row.old.items place value }
    ensures old { slice_get row.old.items place ≡ Some result }
{
    mem::replace(&mut row[place], value)
}
