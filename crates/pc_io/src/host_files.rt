//! Real files.
ghost use Rattle.std.specs.Prelude.{◌≡◌, ◌≢◌, ◌<◌, ◌≤◌, ◌+◌, List, ℕ, length, None, IfOk, IfSome, IsErrOf, OnOk, vec_len, ◌^◌, IfErr};
ghost use Rattle.pc_io.specs.Failed.{times};
ghost use Rattle.pc_io.specs.Files.{part_of};
ghost use Rattle.pc_io.specs.HostFiles.{no_readings, failed_after};

use crate::failures::Failures;
use crate::{Bytes, FileFault, Files};
use std::alloc::Global;
use std::io::{self, ErrorKind, Read, Seek, SeekFrom};
use std::marker::Model;
use std::{fs, rt};

/// Real files, by their paths. What they hold is not known to contracts: reads are safe, keep to the limit and give the
/// cause of every failure, and nothing is promised about the bytes.
#[derive(Drop)]
pub struct HostFiles<'a, R: rt::Files> {
    runtime: &'a R,
    failures: Failures,
    // The file of the last call of `part`, if it may have more.
    begun: Option<Begun<R::File>>,
    taken: usize,
}

// An open file, and how many of its bytes come before its current position.
#[derive(Drop)]
struct Begun<F: Drop> {
    name: Bytes,
    place: u64,
    file: F,
}

impl<'a, R: rt::Files> Model for HostFiles<'a, R> {
    ghost use Rattle.pc_io.specs.HostFiles.{Readings};

    ghost Value = { Readings };

    ghost view = { λ s. record { failed = s.failures.names.items; taken = s.taken } };
}

impl<'a, R: rt::Files> HostFiles<'a, R> {
    /// The files that this runtime opens. Does not allocate.
    pub fn new(alloc: Global, runtime: &'a R) -> HostFiles<'a, R>
        ensures { result ≡ no_readings }
    {
        HostFiles {
            runtime,
            failures: Failures::new(alloc),
            begun: None,
            taken: 0,
        }
    }
}

impl<'a, R: rt::Files> Files for HostFiles<'a, R> {
    ghost bytes = { λ s name. None };

    ghost faults = { λ s name. times name s.failed };

    ghost taken = { λ s. s.taken };

    /// Opens the file and reads to its end, or until one byte more than the limit was taken. The memory for recording a
    /// failure of this name is allocated first.
    #[tactic(auto, using(crate::proofs::Times::rises, crate::proofs::Times::keeps))]
    fn read(&mut self, alloc: Global, name: &str, limit: u32) -> Result<Bytes, FileFault>
        ensures later { (n : List ℕ) → times n self.old.failed ≤ times n self.new.failed }
        ensures failed { IsErrOf result FileFault.Failed → times name.now self.old.failed < times name.now self.new.failed }
        ensures names { self.new.failed ≡ failed_after self.old.failed name.now result }

        // As for all files: here the bytes are not known.
        ensures all { IfOk result (λ b. IfSome None (λ known. b ≡ known)) }

        // How much was taken.
        ensures within { IfOk result (λ b. length b ≤ limit) }
        ensures whole { IfOk result (λ b. self.new.taken ≡ length b) }
        ensures longer { IsErrOf result FileFault.TooLong → limit < self.new.taken }
        ensures at_most { self.new.taken ≤ limit + 1 }
    {
        self.taken = 0;
        let failure = self.failures.make_room(alloc, name)?;
        let (taken, answer) = read_file(alloc, self.runtime, name, limit);
        self.taken = taken;
        if let Err(FileFault::Failed) = answer {
            self.failures.add(failure);
        }
        answer
    }

    /// Reads from `from` on, to the end of the file or to the limit. If the last call read a part of this name that
    /// ended at `from` and reached its limit, the file is still open and reading continues, so that consecutive parts
    /// are of one file whatever the name denotes meanwhile, and a pipe is read to its end. Otherwise the file is opened
    /// anew and positioned at `from`, which a pipe can only do for 0.
    #[tactic(auto, using(crate::proofs::Times::rises, crate::proofs::Times::keeps))]
    fn part(&mut self, alloc: Global, name: &str, from: u32, limit: u32) -> Result<Bytes, FileFault>
        ensures later { (n : List ℕ) → times n self.old.failed ≤ times n self.new.failed }
        ensures failed { IsErrOf result FileFault.Failed → times name.now self.old.failed < times name.now self.new.failed }
        ensures names { self.new.failed ≡ failed_after self.old.failed name.now result }
        ensures short { result ≢ Err FileFault.TooLong }

        // As for all files: here the bytes are not known.
        ensures all { IfOk result (λ b. IfSome None (λ known. b ≡ part_of known from limit)) }

        // How much was taken.
        ensures within { IfOk result (λ b. length b ≤ limit) }
        ensures whole { IfOk result (λ b. self.new.taken ≡ length b) }
        ensures at_most { self.new.taken ≤ limit }
    {
        self.taken = 0;
        let copy = self.failures.make_room(alloc, name)?;
        let begun = self.begun.take();
        let (taken, answer) = read_file_part(alloc, self.runtime, begun, name, from, limit);
        self.taken = taken;
        match answer {
            Ok((bytes, file)) => {
                if taken == limit as usize {
                    let place = u64::from(from) + taken as u64;
                    self.begun = Some(Begun {
                        name: copy,
                        place,
                        file,
                    });
                }
                Ok(bytes)
            }
            Err(fault) => {
                if let FileFault::Failed = fault {
                    self.failures.add(copy);
                }
                Err(fault)
            }
        }
    }
}

// How many bytes were taken from the file with this name, and what the read returns.
fn read_file<R: rt::Files>(
    alloc: Global,
    runtime: &R,
    name: &str,
    limit: u32,
) -> (usize, Result<Bytes, FileFault>)
    ensures within { IfOk result.1 (λ b. length b ≤ limit) }
    ensures whole { IfOk result.1 (λ b. result.0 ≡ length b) }
    ensures longer { IsErrOf result.1 FileFault.TooLong → limit < result.0 }
    ensures at_most { result.0 ≤ limit + 1 }
{
    let mut bytes = Vec::new(alloc);
    let ended = match fs::open(runtime, name) {
        Ok(mut file) => fill(&mut file, &mut bytes, limit as usize + 1),
        Err(error) => Err(fault_of(&error)),
    };
    let taken = bytes.len();
    match ended {
        Ok(()) => {
            if taken > limit as usize {
                return (taken, Err(FileFault::TooLong));
            }
            (taken, Ok(Bytes::from_vec(bytes)))
        }
        Err(fault) => (taken, Err(fault)),
    }
}

// How many bytes were taken from the file with this name, and what reading the part returns, with the file, which is
// positioned after the part.
fn read_file_part<R: rt::Files>(
    alloc: Global,
    runtime: &R,
    begun: Option<Begun<R::File>>,
    name: &str,
    from: u32,
    limit: u32,
) -> (usize, Result<(Bytes, R::File), FileFault>)
    ensures within { IfOk result.1 (λ part. length part.0 ≤ limit) }
    ensures whole { IfOk result.1 (λ part. result.0 ≡ length part.0) }
    ensures short { IfErr result.1 (λ fault. fault ≢ FileFault.TooLong) }
    ensures at_most { result.0 ≤ limit }
{
    let mut file = match file_at(runtime, begun, name, from) {
        Ok(file) => file,
        Err(fault) => return (0, Err(fault)),
    };
    let mut bytes = Vec::new(alloc);
    let ended = fill(&mut file, &mut bytes, limit as usize);
    let taken = bytes.len();
    match ended {
        Ok(()) => (taken, Ok((Bytes::from_vec(bytes), file))),
        Err(fault) => (taken, Err(fault)),
    }
}

// The file with this name at this place: the one that is already open if it is positioned there, else a newly opened
// one.
fn file_at<R: rt::Files>(
    runtime: &R,
    begun: Option<Begun<R::File>>,
    name: &str,
    from: u32,
) -> Result<R::File, FileFault>
    ensures { IfErr result (λ fault. fault ≢ FileFault.TooLong) }
{
    if let Some(
        Begun {
            name: begun_name,
            place,
            file,
        },
    ) = begun
    {
        if begun_name.as_slice() == name.as_bytes() && place == u64::from(from) {
            return Ok(file);
        }
    }
    open_at(runtime, name, from)
}

// Opens the file with this name, and moves to this place.
fn open_at<R: rt::Files>(runtime: &R, name: &str, from: u32) -> Result<R::File, FileFault>
    ensures { IfErr result (λ fault. fault ≢ FileFault.TooLong) }
{
    let mut file = match fs::open(runtime, name) {
        Ok(file) => file,
        Err(error) => return Err(fault_of(&error)),
    };
    if from > 0 {
        if let Err(error) = file.seek(SeekFrom::Start(u64::from(from))) {
            return Err(fault_of(&error));
        }
    }
    Ok(file)
}

// Appends what a reader gives, up to its end, but at most `most` bytes.
fn fill<F: Read>(file: &mut F, bytes: &mut Vec<u8>, most: usize) -> Result<(), FileFault>
    requires { vec_len bytes.old ≡ 0 }
    ensures short { IfErr result (λ fault. fault ≢ FileFault.TooLong) }
    ensures within { vec_len bytes.new ≤ most }
{
    let mut chunk = [0u8; 4096];
    for _ in 0..u64::MAX {
        if bytes.len() == most {
            return Ok(());
        }
        let room = (most - bytes.len()).min(chunk.len());
        bytes.reserve(room)?;
        match file.read(&mut chunk[..room]) {
            Ok(0) => return Ok(()),
            Ok(count) => bytes.extend_from_slice(&chunk[..count])?,
            Err(error) => {
                if error.kind() != ErrorKind::Interrupted {
                    return Err(fault_of(&error));
                }
            }
        }
    }
    Err(FileFault::Failed)
}

// Why a file could not be opened or read.
fn fault_of(error: &io::Error) -> FileFault
    ensures { result ≢ FileFault.TooLong }
{
    match error.kind() {
        ErrorKind::OutOfMemory => FileFault::Memory,
        _ => FileFault::Failed,
    }
}
