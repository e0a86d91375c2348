//! Rows of 256 places, seen as the lists of their values.
ghost use Rattle.std.specs.Prelude.{◌≡◌, ◌<◌, [], ◌∷◌, ◌++◌, length, Some, slice_get, slice_set, IfOk};
ghost use Rattle.pc_arena.specs.Chunks.{chunk_size};

use crate::row::{ROW_SIZE, Row};
use std::alloc::{AllocError, Global};
use std::marker::Model;
use std_alloc::room::may_hold;

/// How many places a chunk has.
pub(crate) const CHUNK_SIZE: usize = ROW_SIZE;

/// 256 places that never move, the first of which hold values. Contracts see a chunk as the list of its values.
pub struct Chunk<T> {
    row: Row<T, Global>,
    alloc: Global,
}

impl<T> Model for Chunk<T> {
    ghost use Rattle.std.specs.Prelude.{List};

    ghost Value = { List T };

    ghost use Rattle.pc_arena.specs.Chunks.{Sound};

    ghost view = { λ chunk. chunk.row.values };

    ghost invariant = { λ chunk. Sound chunk.row chunk.alloc };
}

impl<T> Chunk<T> {
    /// A chunk without values.
    pub(crate) fn new(alloc: Global) -> Result<Chunk<T>, AllocError>
        ensures { IfOk result (λ chunk. chunk ≡ []) }
    {
        if !may_hold::<T>(ROW_SIZE) {
            return Err(AllocError);
        }
        let row = Row::new(&alloc)?;
        Ok(Chunk { row, alloc })
    }

    /// How many values it holds.
    fn len(&self) -> usize
        ensures { result ≡ length self.now }
    {
        self.row.len()
    }

    /// Writes a value to the first empty place. It cannot run out of memory.
    pub(crate) fn push(&mut self, value: T)
        requires { length self.old < chunk_size }
        ensures { self.new ≡ self.old ++ value ∷ [] }
    {
        self.row.push(value);
    }

    /// The value at a place. It cannot run out of memory.
    pub(crate) fn get(&self, place: usize) -> &T
        requires { place < length self.now }
        ensures { slice_get self.now place ≡ Some result.now }
    {
        self.row.get(place)
    }

    /// Replaces the value at a place, and returns the old one. It cannot run out of memory.
    pub(crate) fn exchange(&mut self, place: usize, value: T) -> T
        requires { place < length self.old }
        ensures before { slice_get self.old place ≡ Some result }
        ensures after { self.new ≡ slice_set self.old place value }
    {
        self.row.exchange(place, value)
    }

    /// Moves the last value out.
    fn pop(&mut self) -> T
        requires { 0 < length self.old }
        ensures { self.old ≡ self.new ++ result ∷ [] }
    {
        self.row.pop()
    }

    /// Frees a chunk without values.
    fn free(self)
        requires { self ≡ [] }
    {
        let Chunk { row, alloc } = self;
        row.free(&alloc);
    }
}

/// Drops each value once, the last first, and then frees the row.
impl<T: Drop> Drop for Chunk<T> {
    fn drop(mut self) {
        while self.len() > 0 {
            drop(self.pop());
        }
        self.free();
    }
}
