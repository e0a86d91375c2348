//! Values at places that never move, numbered from 0.
ghost use Rattle.std.specs.Prelude.{◌≡◌, ℕ, ◌+◌, ◌<◌, ◌≤◌, [], ◌∷◌, ◌++◌, length, Some, slice_get, slice_set, IsOk, OnOk};
ghost use Rattle.pc_arena.specs.Arenas.{place_limit, Grown};

use crate::chunk::{CHUNK_SIZE, Chunk};
use std::alloc::{AllocError, Global};
use std::marker::Model;

/// Values at places that never move, numbered from 0 in the order in which they came.
#[derive(Drop)]
pub struct Arena<T> {
    chunks: Vec<Chunk<T>>,
    count: u32,
    spare: u32,
}

impl<T> Model for Arena<T> {
    ghost use Rattle.pc_arena.specs.Arenas.{ArenaData, coded_arena};

    ghost Value = { ArenaData T };

    ghost coded = { coded_arena T.code };

    ghost use Rattle.pc_arena.specs.Arenas.{arena, joined, Sound};

    ghost view = { λ inside. arena (joined inside.chunks.items) inside.spare };

    ghost invariant = { λ inside. Sound inside.chunks.items inside.count inside.spare };
}

/// Adds chunks until there are `wanted`. If memory runs out, some of them may stay.
fn grow<T>(chunks: &mut Vec<Chunk<T>>, wanted: usize) -> Result<(), AllocError>
    ensures grown { Grown chunks.old.items chunks.new.items }
    ensures ok { OnOk result (wanted ≤ length chunks.new.items) }
{
    while chunks.len() < wanted {
        chunks.reserve(1)?;
        let chunk = Chunk::new(*chunks.allocator())?;
        match chunks.push(chunk) {
            Ok(()) => {}
            Err(_) => unreachable!(),
        }
    }
    Ok(())
}

impl<T> Arena<T> {
    /// An arena without values and without room. It cannot run out of memory.
    pub fn new(alloc: Global) -> Arena<T>
        ensures items { result.items ≡ [] }
        ensures spare { result.spare ≡ 0 }
    {
        Arena {
            chunks: Vec::new(alloc),
            count: 0,
            spare: 0,
        }
    }

    /// How many values there are. It cannot run out of memory.
    pub fn len(&self) -> u32
        ensures { result ≡ length self.now.items }
    {
        self.count
    }

    /// Makes room for `more` pushes. If memory runs out, no room is lost.
    pub fn reserve(&mut self, more: u32) -> Result<(), AllocError>
        requires { length self.old.items + more < place_limit }
        ensures items { self.new.items ≡ self.old.items }
        ensures ok { OnOk result (more ≤ self.new.spare) }
        ensures kept { self.old.spare ≤ self.new.spare }
        // If there is room already, it cannot run out of memory.
        ensures enough { more ≤ self.old.spare → IsOk result }
    {
        if more <= self.spare {
            return Ok(());
        }
        let wanted = self.count as usize + more as usize;
        grow(&mut self.chunks, wanted.div_ceil(CHUNK_SIZE))?;
        self.spare = more;
        Ok(())
    }

    /// Puts a value at the next place, and returns the place. It cannot run out of memory.
    pub fn push(&mut self, value: T) -> u32
        requires { 0 < self.old.spare }
        ensures place { result ≡ length self.old.items }
        ensures items { self.new.items ≡ self.old.items ++ value ∷ [] }
        ensures spare { self.new.spare + 1 ≡ self.old.spare }
    {
        let place = self.count;
        self.chunks[place as usize / CHUNK_SIZE].push(value);
        self.count = place + 1;
        self.spare -= 1;
        place
    }

    /// The value at a place. It cannot run out of memory.
    pub fn get(&self, place: u32) -> &T
        requires { place < length self.now.items }
        ensures { slice_get self.now.items place ≡ Some result.now }
    {
        let chunk = &self.chunks[place as usize / CHUNK_SIZE];
        chunk.get(place as usize % CHUNK_SIZE)
    }

    /// Replaces the value at a place, and returns the old one. It cannot run out of memory.
    pub fn exchange(&mut self, place: u32, value: T) -> T
        requires { place < length self.old.items }
        ensures before { slice_get self.old.items place ≡ Some result }
        ensures items { self.new.items ≡ slice_set self.old.items place value }
        ensures spare { self.new.spare ≡ self.old.spare }
    {
        self.chunks[place as usize / CHUNK_SIZE].exchange(place as usize % CHUNK_SIZE, value)
    }
}
