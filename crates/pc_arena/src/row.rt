//! A row of memory for 256 values, which is written from the start.
ghost use Rattle.std.specs.Prelude.{◌≡◌, ◌<◌, ◌≤◌, List, [], ◌∷◌, ◌++◌, length, Some, slice_get, slice_set, IfOk};
ghost use Rattle.std.specs.Vec.Ownership.{FitsInBlock};
ghost use Rattle.pc_arena.specs.Ownership.{row_size, row_owned, row_lent};

use std::alloc::{AllocError, Allocator};
use std::marker::{Model, PhantomData};
use std::mem::{align_of, size_of};

/// How many values a row has memory for.
pub(crate) const ROW_SIZE: usize = 256;

/// Memory for 256 values, the first of which are written. It owns these values, the memory after them, and the right to
/// give all of it back to the allocator that it came from. It never moves, and can be neither copied nor dropped: its
/// owner has to take the values out and give it back. That memory is given back is not proved, since in the logic what
/// is owned may be forgotten.
pub struct Row<T, A: Allocator> {
    first: *mut T,
    count: usize,
    allocator: PhantomData<*const A>,
    ghost values: { List T },
    ghost from: { A },
    ghost counted: { (count ≡ length values) × (count ≤ row_size) },
}

impl<T, A: Allocator> Model for Row<T, A> {
    ghost also_owns = { λ r. row_owned T.row (A.dealloc_token r.from) r.first r.values };

    ghost also_shares = { λ r _ κ. row_lent T.row r.first r.values κ };
}

impl<T, A: Allocator> Row<T, A> {
    /// A row without values.
    pub(crate) fn new(alloc: &A) -> Result<Row<T, A>, AllocError>
        requires { FitsInBlock T.row row_size }
        ensures { IfOk result (λ row. (row.values ≡ []) × (row.from ≡ alloc.now)) }
    {
        match alloc.allocate(ROW_SIZE * size_of::<T>(), align_of::<T>()) {
            Ok(block) => Ok(Row {
                first: block as *mut T,
                count: 0,
                allocator: PhantomData,
            }),
            Err(error) => Err(error),
        }
    }

    /// How many values it has.
    pub(crate) fn len(&self) -> usize
        ensures { result ≡ length self.now.values }
    {
        self.count
    }

    /// Writes a value after the last one.
    pub(crate) fn push(&mut self, value: T)
        requires { length self.old.values < row_size }
        ensures { (self.new.values ≡ self.old.values ++ value ∷ []) × (self.new.from ≡ self.old.from) }
    {
        unsafe {
            self.first.add(self.count).write(value);
        }
        self.count += 1;
    }

    /// The value at a place.
    pub(crate) fn get(&self, place: usize) -> &T
        requires { place < length self.now.values }
        ensures { slice_get self.now.values place ≡ Some result.now }
    {
        unsafe { &*self.first.add(place) }
    }

    /// Replaces a value, and returns the old one.
    pub(crate) fn exchange(&mut self, place: usize, value: T) -> T
        requires { place < length self.old.values }
        ensures before { slice_get self.old.values place ≡ Some result }
        ensures after { (self.new.values ≡ slice_set self.old.values place value) × (self.new.from ≡ self.old.from) }
    {
        let at = unsafe { self.first.add(place) };
        let before = unsafe { at.read() };
        unsafe { at.write(value) };
        before
    }

    /// Moves the last value out.
    pub(crate) fn pop(&mut self) -> T
        requires { 0 < length self.old.values }
        ensures { (self.old.values ≡ self.new.values ++ result ∷ []) × (self.new.from ≡ self.old.from) }
    {
        self.count -= 1;
        unsafe { self.first.add(self.count).read() }
    }

    /// Gives the memory of a row without values back.
    pub(crate) fn free(self, alloc: &A)
        requires { (self.values ≡ []) × (self.from ≡ alloc.now) }
    {
        let Row {
            first,
            count: _,
            allocator: _,
        } = self;
        unsafe {
            alloc.deallocate(first as *mut u8, ROW_SIZE * size_of::<T>(), align_of::<T>());
        }
    }
}
