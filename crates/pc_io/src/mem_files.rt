//! Files in memory, whose reads can be made to fail.
ghost use Rattle.std.specs.Prelude.{◌≡◌, ◌<◌, ◌≤◌, List, ℕ, Some, IsErrOf, IfOk, OnOk, OnErr, if◌then◌else◌, nat_eq};
ghost use Rattle.std.specs.List.{list_any};
ghost use Rattle.std.specs.Str.{bytes_eq};
ghost use Rattle.pc_io.specs.Entries.{held};
ghost use Rattle.pc_io.specs.Failed.{times};
ghost use Rattle.pc_io.specs.MemFiles.{new_store, after_read, after_part, IsAnswerOf, IsPartOf};

use crate::entries::{Entry, find_entry, put_entry};
use crate::failures::Failures;
use crate::reading::{read_bytes, read_part};
use crate::{Bytes, FileFault, Files};
use std::alloc::{AllocError, Global};
use std::marker::Model;

/// Files in memory, for tests of what reads files: chosen calls of `read` and `part` fail.
#[derive(Debug, Drop)]
pub struct MemFiles {
    alloc: Global,
    entries: Vec<Entry>,
    failing: Vec<u32>,
    next_call: u64,
    failures: Failures,
    taken: usize,
}

impl Model for MemFiles {
    ghost use Rattle.pc_io.specs.MemFiles.{Store};

    ghost Value = { Store };

    ghost view = { λ s. record {
      entries = s.entries.items;
      failing = s.failing.items;
      next_call = s.next_call;
      failed = s.failures.names.items;
      taken = s.taken;
    } };
}

impl MemFiles {
    /// No files yet. The reads with the numbers in `fail` will fail: calls of `read` and `part` are numbered together
    /// from 1, whatever name they are given and whatever they return.
    ///
    /// # Errors
    /// `AllocError` if there is no memory for a copy of `fail`.
    pub fn new(alloc: Global, fail: &[u32]) -> Result<MemFiles, AllocError>
        ensures { IfOk result (λ files. files ≡ new_store fail.now) }
    {
        Ok(MemFiles {
            alloc,
            entries: Vec::new(alloc),
            failing: fail.to_vec(alloc)?,
            next_call: 1,
            failures: Failures::new(alloc),
            taken: 0,
        })
    }

    /// Adds a file. If there is a file with that name, these bytes replace its own.
    ///
    /// # Errors
    /// `AllocError` if there is no memory for the file; then nothing has changed.
    pub fn add(&mut self, name: &str, bytes: &[u8]) -> Result<(), AllocError>
        ensures ok { OnOk result ((n : List ℕ) → held self.new.entries n
            ≡ (if bytes_eq name.now n then Some bytes.now else held self.old.entries n)) }
        ensures rest { self.new ≡ record self.old { entries = self.new.entries } }
        ensures err { OnErr result (self.new ≡ self.old) }
    {
        put_entry(&mut self.entries, self.alloc, name, bytes)
    }
}

impl Files for MemFiles {
    ghost bytes = { λ s name. held s.entries name };

    ghost faults = { λ s name. times name s.failed };

    ghost taken = { λ s. s.taken };

    /// Fails iff the number of the call is one of those that fail, or there is no file with that name.
    #[tactic(auto, using(crate::proofs::Times::rises, crate::proofs::Times::keeps))]
    fn read(&mut self, alloc: Global, name: &str, limit: u32) -> Result<Bytes, FileFault>
        ensures answer { IsAnswerOf self.old name.now limit result }
        ensures later { (n : List ℕ) → times n self.old.failed ≤ times n self.new.failed }
        ensures failed { IsErrOf result FileFault.Failed → times name.now self.old.failed < times name.now self.new.failed }
        ensures rest { self.new ≡ after_read self.old name.now limit result }
    {
        let call = self.next_call;
        self.next_call = call.saturating_add(1);
        self.taken = 0;
        let failure = self.failures.make_room(alloc, name)?;
        if is_listed(&self.failing, call) {
            self.failures.add(failure);
            return Err(FileFault::Failed);
        }
        let Some(entry) = find_entry(&self.entries, name.as_bytes()) else {
            self.failures.add(failure);
            return Err(FileFault::Failed);
        };
        let (taken, answer) = read_bytes(alloc, entry.bytes.as_slice(), limit);
        self.taken = taken;
        answer
    }

    /// Fails iff the number of the call is one of those that fail, or there is no file with that name.
    #[tactic(auto, using(crate::proofs::Times::rises, crate::proofs::Times::keeps, crate::proofs::Parts::short_part))]
    fn part(&mut self, alloc: Global, name: &str, from: u32, limit: u32) -> Result<Bytes, FileFault>
        ensures answer { IsPartOf self.old name.now from limit result }
        ensures later { (n : List ℕ) → times n self.old.failed ≤ times n self.new.failed }
        ensures failed { IsErrOf result FileFault.Failed → times name.now self.old.failed < times name.now self.new.failed }
        ensures rest { self.new ≡ after_part self.old name.now result }
    {
        let call = self.next_call;
        self.next_call = call.saturating_add(1);
        self.taken = 0;
        let failure = self.failures.make_room(alloc, name)?;
        if is_listed(&self.failing, call) {
            self.failures.add(failure);
            return Err(FileFault::Failed);
        }
        let Some(entry) = find_entry(&self.entries, name.as_bytes()) else {
            self.failures.add(failure);
            return Err(FileFault::Failed);
        };
        let (taken, answer) = read_part(alloc, entry.bytes.as_slice(), from, limit);
        self.taken = taken;
        answer
    }
}

// Whether the number of a call is one of these.
fn is_listed(numbers: &[u32], call: u64) -> bool
    ensures { result ≡ list_any (nat_eq call) numbers.now }
{
    numbers.iter().any(|&n| call == u64::from(n))
}
