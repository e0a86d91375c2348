//! Commands on files and sinks in memory, with a read or a write that fails: what they do, and whether it is what they
//! should.

use crate::counted_sink::CountedSink;
use pc_io::MemFiles;
use pc_referee::Rules;
use pc_test_inputs::place_of_difference;
use pc_top::rcap;
use std::alloc::{AllocError, Global};
use std::process::Abort;

/// A write that fails, by its number and by how many bytes it takes first. Calls are counted from 1.
pub(crate) type Failing = (u32, u32);

/// No write fails.
pub(crate) const NONE: Failing = (0, 0);

/// What is on a sink, and how many calls of `put` it had.
pub(crate) type Called<'a> = (&'a [u8], u32);

/// The read, the write on out and the write on err that fail, and then the status, and what out and err have.
pub(crate) type Row<'a> = (u32, Failing, Failing, u8, Called<'a>, Called<'a>);

/// The words of a command, the source in `a.pony`, the other text in `a.der` and in `a.sched`, and what it does after each of
/// these failures.
pub(crate) type Command<'a> = (&'a [&'a str], &'a [u8], &'a [u8], &'a [Row<'a>]);

fn add_texts(files: &mut MemFiles, source: &[u8], other: &[u8]) -> Result<(), AllocError> {
    files.add("a.pony", source)?;
    files.add("a.der", other)?;
    files.add("a.sched", other)
}

/// The source `a.pony`, and the other text in `a.der` and in `a.sched`, with one read failing.
pub(crate) fn files_of(
    alloc: Global,
    source: &[u8],
    other: &[u8],
    read: u32,
) -> Result<MemFiles, AllocError> {
    let mut files = MemFiles::new(alloc, &[read])?;
    add_texts(&mut files, source, other)?;
    Ok(files)
}

/// How a sink has something else than it should.
#[derive(Clone, Copy, Debug, PartialEq, Eq)]
enum Unlike {
    /// It had this many calls of `put`.
    Calls(u32),
    /// From this place on its text is another.
    Text(usize),
}

/// How a command does something else than it should.
#[derive(Clone, Copy, Debug, PartialEq, Eq)]
enum Differs {
    /// Memory ran out before it was run.
    NotRun,
    /// It has this status.
    Status(u8),
    /// What is on out.
    Out(Unlike),
    /// What is on err.
    Line(Unlike),
}

impl From<AllocError> for Differs {
    fn from(_: AllocError) -> Differs {
        Differs::NotRun
    }
}

// How a sink has something else than these calls with this text.
fn difference_of(sink: &CountedSink, called: Called<'_>) -> Option<Unlike> {
    if sink.calls() != called.1 {
        return Some(Unlike::Calls(sink.calls()));
    }
    match place_of_difference(sink.bytes(), called.0) {
        Some(place) => Some(Unlike::Text(place)),
        None => None,
    }
}

// Checks that a command ended with the status of a row, and left what it says on out and err.
fn did(status: u8, out: &CountedSink, err: &CountedSink, row: &Row<'_>) -> Result<(), Differs> {
    if status != row.3 {
        return Err(Differs::Status(status));
    }
    if let Some(unlike) = difference_of(out, row.4) {
        return Err(Differs::Out(unlike));
    }
    match difference_of(err, row.5) {
        Some(unlike) => Err(Differs::Line(unlike)),
        None => Ok(()),
    }
}

// Checks that a command on these files does what a row says.
fn does(alloc: Global, words: &[&str], files: &mut MemFiles, row: &Row<'_>) -> Result<(), Differs> {
    let mut out = CountedSink::new(alloc, &[row.1])?;
    let mut err = CountedSink::new(alloc, &[row.2])?;
    let status = rcap(alloc, words, files, &mut out, &mut err, &mut Rules);
    did(status, &out, &err, row)
}

// Checks that a command does what a row says.
fn does_row(alloc: Global, command: &Command<'_>, row: &Row<'_>) -> Result<(), Differs> {
    let mut files = files_of(alloc, command.1, command.2, row.0)?;
    does(alloc, command.0, &mut files, row)
}

// Checks that a command does what each row says, or names the first of which this is not so.
fn does_rows(alloc: Global, command: &Command<'_>) -> Result<(), (usize, Differs)> {
    for at in 0..command.3.len() {
        if let Err(differs) = does_row(alloc, command, &command.3[at]) {
            return Err((at, differs));
        }
    }
    Ok(())
}

/// Each of these commands does what its rows say.
pub(crate) fn all_do(rt: &impl Abort, alloc: Global, commands: &[Command<'_>]) {
    for at in 0..commands.len() {
        assert_eq!(rt; does_rows(alloc, &commands[at]), Ok(()), "command {at}");
    }
}
