//! What a judge reports of a small program's derivation and of its variants, and what it asks.
use pc_ann::Note;
use pc_core::Core;
use pc_feed::{Stream, StreamFault};
use pc_judge::JudgeFault;
use pc_referee::{ListReferee, Rules};
use pc_test_inputs::programs::ONE_OBJECT;
use pc_test_inputs::{LINES, LINES2, NODES, Wrong, core_of, note, variant_of};
use std::alloc::Global;

/// The core of the program.
pub(crate) fn program(alloc: Global) -> Result<Core, Wrong> {
    core_of(alloc, ONE_OBJECT)
}

// Whether a fault that a call returns is returned by the next one too.
fn keeps(before: &Result<(), StreamFault>, after: &Result<(), StreamFault>) -> bool {
    before.is_ok() || *after == *before
}

/// What a judge finally reports of two pieces, if each fault that it returns for a piece is returned from then on.
pub(crate) fn judge_pieces(
    alloc: Global,
    core: &Core,
    first: &[u8],
    second: &[u8],
) -> Option<Result<(), StreamFault>> {
    let mut stream = Stream::start(alloc, core);
    let of_first = stream.feed(first, &mut Rules);
    let of_second = stream.feed(second, &mut Rules);
    let end = stream.end();
    if keeps(&of_first, &of_second) && keeps(&of_second, &end) {
        Some(end)
    } else {
        None
    }
}

// Whether the question was about this node of the derivation.
fn is_node(asked: Option<&(u32, Note)>, at: usize) -> bool {
    match (asked, NODES.get(at)) {
        (Some((number, own)), Some(row)) => *number as usize == at && *own == note(*row),
        (None, _) | (_, None) => false,
    }
}

/// How many nodes a referee was asked about if they are the first ones, in order, or the first question that was about
/// another node.
pub(crate) type Asked = Result<usize, usize>;

pub(crate) fn asked_of(referee: &ListReferee) -> Asked {
    let asked = referee.asked();
    for at in 0..asked.len() {
        if !is_node(asked.get(at), at) {
            return Err(at);
        }
    }
    Ok(asked.len())
}

/// What a judge reports of a text when it is fed with it and at the end, and what it asks.
type Judgement = (Result<(), StreamFault>, Result<(), StreamFault>, Asked);

fn judge_asking(alloc: Global, core: &Core, text: &[u8]) -> Judgement {
    let mut referee = ListReferee::new(alloc);
    let mut stream = Stream::start(alloc, core);
    let fed = stream.feed(text, &mut referee);
    let end = stream.end();
    (fed, end, asked_of(&referee))
}

/// Lines of a derivation, the number of one of them, other bytes for it, and what is reported and asked then.
type Row = (&'static [&'static [u8]], usize, &'static [u8], Judgement);

const ALL: Judgement = (Ok(()), Ok(()), Ok(7));

const THREE: Judgement = (
    Ok(()),
    Err(StreamFault::Invalid(JudgeFault::Node(3))),
    Ok(3),
);

const ROWS: [Row; 4] = [
    (&LINES, 0, b"", ALL),
    (&LINES, 9, b"n new 6 ref 3 0 3 0\n", THREE),
    (&LINES2, 0, b"", ALL),
    (&LINES2, 9, b"n new 6 ref 3 0 0 0\n", THREE),
];

// The same of the program and the text of a row.
fn judged(alloc: Global, row: &Row) -> Result<Judgement, Wrong> {
    let text = variant_of(alloc, row.0, row.1, row.2)?;
    let core = program(alloc)?;
    Ok(judge_asking(alloc, &core, &text))
}

// The place of the first of these rows of which something else is reported or asked, and what is.
fn wrong_judgement(alloc: Global, rows: &[Row]) -> Option<(usize, Result<Judgement, Wrong>)> {
    for at in 0..rows.len() {
        let found = judged(alloc, &rows[at]);
        if found != Ok(rows[at].3) {
            return Some((at, found));
        }
    }
    None
}

#[test]
fn each_node_is_asked_up_to_the_first_fault(rt: HostRuntime) {
    assert_eq!(rt; wrong_judgement(rt.alloc(), &ROWS), None);
}
