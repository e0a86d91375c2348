//! The trace of a program that is not accepted: two actors write a field, and nothing orders them.
use crate::sightings::list_of;
use pc_core::Core;
use pc_test_inputs::{Wrong, core_of};
use pc_trace::{Touch, Trace, TraceFault, Verdict, trace};
use std::alloc::{AllocError, Global};

/// An access to the first field of an object: its place in the run, its actor, the object's maker and serial, whether it
/// writes, and its clock.
type Row = (u64, u32, u32, u32, bool, &'static [u64]);

/// Why a run has no trace, or another one than it should.
#[derive(Clone, Copy, Debug, PartialEq, Eq)]
enum Untraced {
    /// There is no run.
    NoRun(Wrong),
    /// The run is not traced to its end.
    Cut(TraceFault),
    /// The access at this place is another one.
    Access(usize),
}

impl From<AllocError> for Untraced {
    fn from(_: AllocError) -> Untraced {
        Untraced::NoRun(Wrong::OutOfMemory)
    }
}

impl From<Wrong> for Untraced {
    fn from(wrong: Wrong) -> Untraced {
        Untraced::NoRun(wrong)
    }
}

// The trace of a core, whether it is accepted or not.
fn trace_in(alloc: Global, core: &Core, actors: &[u32]) -> Result<Trace, Untraced> {
    if actors.len() > 4_000_000 {
        return Err(Untraced::NoRun(Wrong::PastLimit));
    }
    match trace(alloc, core, actors) {
        Ok(trace) => Ok(trace),
        Err(fault) => Err(Untraced::Cut(fault)),
    }
}

// The same of a program.
fn trace_of(alloc: Global, program: &[u8], actors: &[u32]) -> Result<Trace, Untraced> {
    let core = core_of(alloc, program)?;
    trace_in(alloc, &core, actors)
}

fn is_reported(touch: &Touch, row: &Row) -> bool {
    let (place, actor, maker, serial, write, clock) = *row;
    let address = touch.address;
    touch.place == place
        && touch.actor == actor
        && address.maker == maker
        && address.serial == serial
        && touch.write == write
        && touch.field == 0
        && touch.clock.as_slice() == clock
}

// Checks that these are the accesses, and there are no others.
fn are_reported(touches: &[Touch], rows: &[Row]) -> Result<(), Untraced> {
    for at in 0..rows.len() {
        match touches.get(at) {
            Some(touch) if is_reported(touch, &rows[at]) => {}
            _ => return Err(Untraced::Access(at)),
        }
    }
    if touches.len() == rows.len() {
        Ok(())
    } else {
        Err(Untraced::Access(rows.len()))
    }
}

// The verdict on a program's run, if its trace has exactly these accesses.
fn verdict_of(
    alloc: Global,
    program: &[u8],
    turns: &[(u32, u32)],
    rows: &[Row],
) -> Result<Verdict, Untraced> {
    let actors = list_of(alloc, turns)?;
    let trace = trace_of(alloc, program, &actors)?;
    are_reported(trace.touches.as_slice(), rows).and(Ok(trace.verdict))
}

const WRITERS: &[u8] = b"class C
  var n: U64 = 0
actor R
  new create(c: C ref) => c.n = 1
actor Main
  new create(env: Env) =>
    let c: C ref = C
    R(c)
    R(c)
";

const TURNS: [(u32, u32); 3] = [(1, 25), (2, 8), (3, 8)];

const ROWS: [Row; 3] = [
    (12, 1, 1, 1, true, &[0, 12]),
    (32, 2, 1, 1, true, &[0, 20, 7, 0]),
    (40, 3, 1, 1, true, &[0, 24, 0, 7]),
];

const CONFLICT: Verdict = Verdict::Conflict {
    first: 32,
    second: 40,
};

/// Main sends one object to two actors: both write its field, and there is no message between them. That the program is
/// refused is in `rows/traces.py`.
#[test]
fn two_writers_that_nothing_orders(rt: HostRuntime) {
    let verdict = verdict_of(rt.alloc(), WRITERS, &TURNS, &ROWS);
    assert_eq!(rt; verdict, Ok(CONFLICT));
}
