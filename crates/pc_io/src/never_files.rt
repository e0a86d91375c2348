//! Files in memory, whose reads never fail.
ghost use Rattle.std.specs.Prelude.{◌≡◌, List, ℕ, Some, OnOk, OnErr, if◌then◌else◌};
ghost use Rattle.std.specs.Str.{bytes_eq};
ghost use Rattle.pc_io.specs.Entries.{held, held_or_empty};
ghost use Rattle.pc_io.specs.NeverFiles.{empty_shelf};

use crate::entries::{Entry, find_entry, put_entry};
use crate::reading::{read_bytes, read_part};
use crate::{Bytes, FileFault, Files};
use std::alloc::{AllocError, Global};
use std::marker::Model;

/// Files in memory, whose reads never fail. A missing name reads as an empty file, so the only faults are running out
/// of memory and the limit.
#[derive(Debug, Drop)]
pub struct NeverFiles {
    alloc: Global,
    entries: Vec<Entry>,
    taken: usize,
}

impl Model for NeverFiles {
    ghost use Rattle.pc_io.specs.NeverFiles.{Shelf};

    ghost Value = { Shelf };

    ghost view = { λ s. record { entries = s.entries.items; taken = s.taken } };
}

impl NeverFiles {
    /// No files yet. Does not allocate.
    pub fn new(alloc: Global) -> NeverFiles
        ensures { result ≡ empty_shelf }
    {
        NeverFiles {
            alloc,
            entries: Vec::new(alloc),
            taken: 0,
        }
    }

    /// Adds a file. If there is a file with that name, these bytes replace its own.
    ///
    /// # Errors
    /// `AllocError` if there is no memory for the file; then nothing has changed.
    pub fn add(&mut self, name: &str, bytes: &[u8]) -> Result<(), AllocError>
        ensures ok { OnOk result ((n : List ℕ) → held self.new.entries n
            ≡ (if bytes_eq name.now n then Some bytes.now else held self.old.entries n)) }
        ensures rest { self.new ≡ record self.old { entries = self.new.entries } }
        ensures err { OnErr result (self.new ≡ self.old) }
    {
        put_entry(&mut self.entries, self.alloc, name, bytes)
    }
}

impl Files for NeverFiles {
    ghost bytes = { λ s name. held_or_empty s.entries name };

    ghost faults = { λ s name. 0 };

    ghost taken = { λ s. s.taken };

    fn read(&mut self, alloc: Global, name: &str, limit: u32) -> Result<Bytes, FileFault> {
        let (taken, answer) = match find_entry(&self.entries, name.as_bytes()) {
            Some(entry) => read_bytes(alloc, entry.bytes.as_slice(), limit),
            None => read_bytes(alloc, &[], limit),
        };
        self.taken = taken;
        answer
    }

    #[tactic(auto, using(crate::proofs::Parts::short_part))]
    fn part(
        &mut self,
        alloc: Global,
        name: &str,
        from: u32,
        limit: u32,
    ) -> Result<Bytes, FileFault> {
        let (taken, answer) = match find_entry(&self.entries, name.as_bytes()) {
            Some(entry) => read_part(alloc, entry.bytes.as_slice(), from, limit),
            None => read_part(alloc, &[], from, limit),
        };
        self.taken = taken;
        answer
    }
}
