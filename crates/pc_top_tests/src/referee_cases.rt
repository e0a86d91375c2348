//! What a referee that records the nodes which it found right has recorded after each command.

use crate::running::files_of;
use pc_io::{MemFiles, MemSink};
use pc_referee::ListReferee;
use pc_test_inputs::programs::ONE_OBJECT;
use pc_test_inputs::{LINES, LINES2, NODES, note, variant_of};
use pc_top::rcap;
use std::alloc::{AllocError, Global};
use std::process::Abort;

const CHECK: &[&str] = &["check", "a.pony"];

const JUDGE: &[&str] = &["judge", "a.pony", "a.der"];

const UPGRADE: &[&str] = &["upgrade", "a.pony", "a.der"];

/// The words of a command on `ONE_OBJECT` and its derivation, the line of node 3 in the derivation, the status, and how
/// many nodes are recorded.
type Asking = (&'static [&'static str], &'static [u8], u8, usize);

/// In version 1 of the text, with the right type at the node and with another.
const FIRST: &[Asking] = &[
    (JUDGE, b"n new 6 iso^ 3 0 3 0\n", 0, 7),
    (JUDGE, b"n new 6 ref 3 0 3 0\n", 6, 3),
    (CHECK, b"n new 6 iso^ 3 0 3 0\n", 0, 0),
    (UPGRADE, b"n new 6 iso^ 3 0 3 0\n", 0, 0),
    (UPGRADE, b"n new 6 ref 3 0 3 0\n", 6, 0),
];

/// The same in version 2.
const SECOND: &[Asking] = &[
    (JUDGE, b"n new 6 iso^ 3 0 0 0\n", 0, 7),
    (JUDGE, b"n new 6 ref 3 0 0 0\n", 6, 3),
    (UPGRADE, b"n new 6 iso^ 3 0 0 0\n", 0, 0),
];

// The status of a command that asks a referee.
fn status_of(
    alloc: Global,
    words: &[&str],
    files: &mut MemFiles,
    out: &mut MemSink,
    err: &mut MemSink,
    referee: &mut ListReferee,
) -> u8 {
    rcap(alloc, words, files, out, err, referee)
}

// The status of a command, whatever it writes.
fn ask(
    alloc: Global,
    words: &[&str],
    files: &mut MemFiles,
    referee: &mut ListReferee,
) -> Result<u8, AllocError> {
    let mut out = MemSink::new(alloc, &[])?;
    let mut err = MemSink::new(alloc, &[])?;
    Ok(status_of(alloc, words, files, &mut out, &mut err, referee))
}

// Whether what is recorded at this place is this node, with its note.
fn is_node(referee: &ListReferee, at: usize) -> bool {
    match (referee.asked().get(at), NODES.get(at)) {
        (Some((number, own)), Some(row)) => *number as usize == at && *own == note(*row),
        (None, _) | (_, None) => false,
    }
}

// How many nodes are recorded, if they are the first ones, in order and each with its note, or the first place at which
// there is another.
fn asked_of(referee: &ListReferee) -> Result<usize, usize> {
    let count = referee.asked().len();
    for at in 0..count {
        if !is_node(referee, at) {
            return Err(at);
        }
    }
    Ok(count)
}

/// The status of a command, unless memory ran out, and what the referee has recorded.
type Answer = (Result<u8, AllocError>, Result<usize, usize>);

// What a command on these files answers, and what is recorded after it.
fn ask_on(alloc: Global, words: &[&str], files: &mut MemFiles) -> Answer {
    let mut referee = ListReferee::new(alloc);
    let status = ask(alloc, words, files, &mut referee);
    (status, asked_of(&referee))
}

// The same with these files.
fn ask_with(alloc: Global, words: &[&str], files: Result<MemFiles, AllocError>) -> Answer {
    match files {
        Ok(mut files) => ask_on(alloc, words, &mut files),
        Err(AllocError) => (Err(AllocError), Ok(0)),
    }
}

// The same with this derivation.
fn ask_of(alloc: Global, words: &[&str], derivation: Result<Vec<u8>, AllocError>) -> Answer {
    match derivation {
        Ok(derivation) => ask_with(alloc, words, files_of(alloc, ONE_OBJECT, &derivation, 0)),
        Err(AllocError) => (Err(AllocError), Ok(0)),
    }
}

// After each of these commands, on these lines of the derivation, what is stated is recorded.
fn all_ask(rt: &impl Abort, alloc: Global, lines: &[&[u8]], rows: &[Asking]) {
    for at in 0..rows.len() {
        let (words, line, status, count) = rows[at];
        let derivation = variant_of(alloc, lines, 9, line);
        let answer = ask_of(alloc, words, derivation);
        assert_eq!(rt; answer, (Ok(status), Ok(count)), "row {at}");
    }
}

#[test]
fn each_node_is_asked_up_to_the_first_that_is_wrong(rt: HostRuntime) {
    all_ask(&rt, rt.alloc(), &LINES, FIRST);
    all_ask(&rt, rt.alloc(), &LINES2, SECOND);
}
