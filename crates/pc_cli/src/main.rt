//! The program: it opens the real files and streams, and calls `rcap`.
#![tactic(auto)]

use pc_io::{HostFiles, HostSink};
use pc_referee::Rules;
use pc_top::rcap;
use std::alloc::Global;
use std::process::ExitCode;
use std::{env, io};

/// The status for words that are not a command, as `rcap` returns it.
const WORDS_REFUSED: u8 = 2;

/// The status if memory ran out, as `rcap` returns it.
const NO_MEMORY: u8 = 11;

fn main(rt: HostRuntime) -> ExitCode {
    let alloc = rt.alloc();
    match read_args(alloc, &rt) {
        Ok(args) => ExitCode::from(run(&rt, alloc, &args)),
        Err(error) if error.kind() == io::ErrorKind::OutOfMemory => ExitCode::from(NO_MEMORY),
        Err(_) => ExitCode::from(WORDS_REFUSED),
    }
}

// The words after the program's name, which must be text.
fn read_args(alloc: Global, rt: &HostRuntime) -> io::Result<Vec<String>> {
    let words = env::args(rt)?.skip(1).collect(alloc)?;
    Ok(words)
}

// Calls `rcap` on these words.
fn run(rt: &HostRuntime, alloc: Global, args: &[String]) -> u8 {
    let mut words = Vec::new(alloc);
    for arg in args {
        if words.push(arg.as_str()).is_err() {
            return NO_MEMORY;
        }
    }
    let mut files = HostFiles::new(alloc, rt);
    let mut out = HostSink::new(rt.stdout());
    let mut err = HostSink::new(rt.stderr());
    let mut referee = Rules;
    rcap(
        alloc,
        words.as_slice(),
        &mut files,
        &mut out,
        &mut err,
        &mut referee,
    )
}
