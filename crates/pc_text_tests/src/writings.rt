//! Sinks that are written to: in memory, and over a slow writer that fails.
use crate::slow::SlowWriter;
use pc_io::{HostSink, MemSink, NeverSink, Sink};
use pc_test_inputs::place_of_difference;
use std::alloc::{AllocError, Global};

/// A piece, and whether it is written.
type Piece = (&'static str, bool);

// The first of these pieces with another result.
fn wrong_piece<S: Sink>(sink: &mut S, pieces: &[Piece]) -> Option<&'static str> {
    for (piece, is_written) in pieces {
        if sink.put(piece.as_bytes()).is_ok() != *is_written {
            return Some(*piece);
        }
    }
    None
}

const PIECES: [Piece; 5] = [
    ("ab", true),
    ("cd", false),
    ("", true),
    ("ef", false),
    ("g", true),
];

const WRITTEN: [Piece; 5] = [
    ("ab", true),
    ("cd", true),
    ("", true),
    ("ef", true),
    ("g", true),
];

/// The first piece with another result, and the first place at which a sink holds something else than it should.
type Other = (Option<&'static str>, Option<usize>);

// A sink in memory, which is made to fail, should hold the rest.
fn other_in_memory(alloc: Global) -> Result<Other, AllocError> {
    let mut sink = MemSink::new(alloc, &[(2, 1), (3, 1), (4, 9)])?;
    let piece = wrong_piece(&mut sink, &PIECES);
    Ok((piece, place_of_difference(sink.bytes(), b"abcefg")))
}

// A sink that never fails should hold it all.
fn other_never_failing(alloc: Global) -> Other {
    let mut sink = NeverSink::new(alloc);
    let piece = wrong_piece(&mut sink, &WRITTEN);
    (piece, place_of_difference(sink.bytes(), b"abcdefg"))
}

const SLOW_PIECES: [Piece; 5] = [
    ("abcde", true),
    ("", true),
    ("fghij", false),
    ("k", false),
    ("", true),
];

// A slow writer with room for eight bytes should hold the first eight.
fn other_slow(alloc: Global) -> Other {
    let mut writer = SlowWriter {
        held: Vec::new(alloc),
        room: 8,
        is_interrupted: false,
    };
    let piece = wrong_piece(&mut HostSink::new(&mut writer), &SLOW_PIECES);
    (
        piece,
        place_of_difference(writer.held.as_slice(), b"abcdefgh"),
    )
}

// Short writes go on until the writer fails.
#[test]
fn sinks_take_what_they_can_and_fail_as_asked(rt: HostRuntime) {
    assert_eq!(rt; other_in_memory(rt.alloc()), Ok((None, None)));
    assert_eq!(rt; other_never_failing(rt.alloc()), (None, None));
    assert_eq!(rt; other_slow(rt.alloc()), (None, None));
}
