//! Files that are read: in memory, on the host, and slow ones that fail.
use crate::slow::SlowFiles;
use pc_io::{Bytes, FileFault, Files, HostFiles, MemFiles, NeverFiles};
use std::alloc::{AllocError, Global};
use std::fs;
use std::test::Fail;

/// What a reading returns, or the cause for which it is refused.
type Wanted = Result<&'static [u8], FileFault>;

// Whether a reading gave this text, or was refused with this cause.
fn is_answer(answer: Result<Bytes, FileFault>, wanted: Wanted) -> bool {
    match answer {
        Ok(bytes) => wanted == Ok(bytes.as_slice()),
        Err(fault) => wanted == Err(fault),
    }
}

/// A name, the limit of bytes, and what reading it returns.
type Reading = (&'static str, u32, Wanted);

fn is_read<F: Files>(alloc: Global, files: &mut F, reading: Reading) -> bool {
    let (name, limit, wanted) = reading;
    is_answer(files.read(alloc, name, limit), wanted)
}

// The place of the first of these readings with another result.
fn wrong_reading<F: Files>(alloc: Global, files: &mut F, readings: &[Reading]) -> Option<usize> {
    for at in 0..readings.len() {
        if !is_read(alloc, files, readings[at]) {
            return Some(at);
        }
    }
    None
}

/// A name, the place and the limit of a part, and what reading it returns. A limit of 0 is not a part.
type Part = (&'static str, u32, u32, Wanted);

fn is_part<F: Files>(alloc: Global, files: &mut F, part: Part) -> bool {
    let (name, from, limit, wanted) = part;
    limit > 0 && is_answer(files.part(alloc, name, from, limit), wanted)
}

// The place of the first of these parts with another result.
fn wrong_part<F: Files>(alloc: Global, files: &mut F, parts: &[Part]) -> Option<usize> {
    for at in 0..parts.len() {
        if !is_part(alloc, files, parts[at]) {
            return Some(at);
        }
    }
    None
}

const PARTS: [Part; 6] = [
    ("six", 0, 6, Ok(b"abcdef")),
    ("six", 0, 4, Ok(b"abcd")),
    ("six", 4, 4, Ok(b"ef")),
    ("six", 5, 1, Ok(b"f")),
    ("six", 6, 1, Ok(b"")),
    ("six", 4000000000, 1, Ok(b"")),
];

const IN_MEMORY: [Reading; 6] = [
    ("a", 3, Ok(b"xyz")),
    ("a", 2, Err(FileFault::TooLong)),
    ("a", 3, Err(FileFault::Failed)),
    ("b", 0, Ok(b"")),
    ("c", 9, Err(FileFault::Failed)),
    ("a", 4, Ok(b"xyz")),
];

const NEVER_FAILING: [Reading; 6] = [
    ("a", 3, Ok(b"xyz")),
    ("a", 2, Err(FileFault::TooLong)),
    ("a", 3, Ok(b"xyz")),
    ("b", 0, Ok(b"")),
    ("c", 9, Ok(b"")),
    ("a", 4, Ok(b"xyz")),
];

// A missing name fails unless it is an empty file.
const PARTS_IN_MEMORY: [Part; 3] = [
    ("six", 0, 1, Err(FileFault::Failed)),
    ("six", 0, 1, Ok(b"a")),
    ("gone", 0, 1, Err(FileFault::Failed)),
];

const GONE_NEVER_FAILING: [Part; 1] = [("gone", 0, 1, Ok(b""))];

const GONE_ON_THE_HOST: [Part; 1] = [("gone", 0, 1, Err(FileFault::Failed))];

/// The place of the first reading with another result, and those of the first parts among two tables.
type Others = (Option<usize>, Option<usize>, Option<usize>);

// The parts are those of a text, and then some more.
fn others<F: Files>(alloc: Global, files: &mut F, readings: &[Reading], more: &[Part]) -> Others {
    let reading = wrong_reading(alloc, files, readings);
    let part = wrong_part(alloc, files, &PARTS);
    (reading, part, wrong_part(alloc, files, more))
}

// Adds four files, of which the third one replaces the first.
fn add_four(files: &mut MemFiles) -> Result<(), AllocError> {
    files.add("a", b"abcd")?;
    files.add("b", b"")?;
    files.add("a", b"xyz")?;
    files.add("six", b"abcdef")
}

fn add_four_never_failing(files: &mut NeverFiles) -> Result<(), AllocError> {
    files.add("a", b"abcd")?;
    files.add("b", b"")?;
    files.add("a", b"xyz")?;
    files.add("six", b"abcdef")
}

// The third call and the first one after those of the text are made to fail.
fn others_in_memory(alloc: Global) -> Result<Others, AllocError> {
    let mut files = MemFiles::new(alloc, &[3, 13])?;
    add_four(&mut files)?;
    Ok(others(alloc, &mut files, &IN_MEMORY, &PARTS_IN_MEMORY))
}

fn others_never_failing(alloc: Global) -> Result<Others, AllocError> {
    let mut files = NeverFiles::new(alloc);
    add_four_never_failing(&mut files)?;
    Ok(others(alloc, &mut files, &NEVER_FAILING, &GONE_NEVER_FAILING))
}

#[test]
fn files_in_memory_fail_as_asked(rt: HostRuntime) {
    assert_eq!(rt; others_in_memory(rt.alloc()), Ok((None, None, None)));
    assert_eq!(rt; others_never_failing(rt.alloc()), Ok((None, None, None)));
}

const ON_THE_HOST: [Reading; 5] = [
    ("four", 4, Ok(b"abcd")),
    ("four", 3, Err(FileFault::TooLong)),
    ("none", 0, Ok(b"")),
    ("gone", 9, Err(FileFault::Failed)),
    // A folder can be opened, but not read.
    (".", 9, Err(FileFault::Failed)),
];

fn others_on_the_host(rt: &HostRuntime) -> Others {
    let mut files = HostFiles::new(rt.alloc(), rt);
    others(rt.alloc(), &mut files, &ON_THE_HOST, &GONE_ON_THE_HOST)
}

// How many bytes reading a slow file gives that has this many bytes before it fails, within nine bytes, or why none.
fn slow_answer(alloc: Global, room: usize) -> Result<usize, FileFault> {
    let runtime = SlowFiles { room };
    let mut files = HostFiles::new(alloc, &runtime);
    match files.read(alloc, "a", 9) {
        Ok(bytes) => Ok(bytes.as_slice().len()),
        Err(fault) => Err(fault),
    }
}

#[test]
fn a_file_is_given_whole_or_in_part_or_refused(rt: HostRuntime) -> Result<(), Fail> {
    fs::write(&rt, "four", "abcd")?;
    fs::write(&rt, "none", "")?;
    fs::write(&rt, "six", "abcdef")?;
    assert_eq!(rt; others_on_the_host(&rt), (None, None, None));
    fs::remove_file(&rt, "four")?;
    fs::remove_file(&rt, "none")?;
    fs::remove_file(&rt, "six")?;

    // A file that fails in mid-stream, and one that has more than the limit before it fails.
    assert_eq!(rt; slow_answer(rt.alloc(), 5), Err(FileFault::Failed));
    assert_eq!(rt; slow_answer(rt.alloc(), 50), Err(FileFault::TooLong));
    Ok(())
}

// The parts of a file before it is replaced, and those after: it goes on to its end, and then the new one is read.
const BEFORE_REPLACED: [Part; 1] = [("row", 0, 2, Ok(b"ab"))];

const ONCE_REPLACED: [Part; 4] = [
    ("row", 2, 2, Ok(b"cd")),
    ("row", 4, 4, Ok(b"ef")),
    ("row", 4, 2, Ok(b"yz")),
    ("row", 0, 2, Ok(b"uv")),
];

#[test]
fn parts_in_a_row_are_of_one_file(rt: HostRuntime) -> Result<(), Fail> {
    let mut files = HostFiles::new(rt.alloc(), &rt);
    fs::write(&rt, "row", "abcdef")?;
    assert_eq!(rt; wrong_part(rt.alloc(), &mut files, &BEFORE_REPLACED), None);
    fs::remove_file(&rt, "row")?;
    fs::write(&rt, "row", "uvwxyz")?;
    assert_eq!(rt; wrong_part(rt.alloc(), &mut files, &ONCE_REPLACED), None);
    fs::remove_file(&rt, "row")?;
    Ok(())
}
