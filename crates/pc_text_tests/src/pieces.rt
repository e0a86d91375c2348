//! Derivations that come in pieces. The expected values are those of the whole texts.
use crate::derivations::{CRAFTED, VARIANTS, VARIANTS2, Variant, reads_as};
use pc_caps::Cap;
use pc_deriv::{DerivFault, Line, LineFault, Lines};
use pc_test_inputs::{LINES, LINES2, NODES, note, variant_of};
use std::alloc::{AllocError, Global};

/// The lines of the example's slots.
const SLOT_LINES: [Line; 4] = [
    Line::Slot(6, Cap::Ref),
    Line::Slot(7, Cap::Ref),
    Line::Slot(4, Cap::Val),
    Line::Slot(6, Cap::Iso),
];

// A line of the example in the version with this number.
fn line_of(version: u32, at: usize) -> Option<Line> {
    if at == 0 {
        return Some(Line::Head {
            version,
            slots: 4,
            nodes: 7,
        });
    }
    if at < 5 {
        return SLOT_LINES.get(at - 1).copied();
    }
    let row = NODES.get(at - 5)?;
    Some(Line::Node(note(*row)))
}

/// How many lines ended, and the first of them that is not that of the example in the version with this number.
#[derive(Drop)]
struct Ended {
    version: u32,
    count: usize,
    other: Option<usize>,
}

impl Ended {
    fn add(&mut self, line: Line) {
        if self.other.is_none() && line_of(self.version, self.count) != Some(line) {
            self.other = Some(self.count);
        }
        self.count = self.count.saturating_add(1);
    }
}

// Appends the lines that end in a piece to those before, up to a fault.
fn feed(lines: &mut Lines, piece: &[u8], ended: &mut Ended) -> Result<(), LineFault> {
    let mut at = 0;
    for _ in 0..piece.len() {
        match lines.next(piece, piece.len().min(at)) {
            Ok((stop, Some(line))) => {
                ended.add(line);
                at = stop;
            }
            Ok((_, None)) => return Ok(()),
            Err(fault) => return Err(fault),
        }
    }
    Ok(())
}

/// How many lines ended, the first of them that is not that of the example, and the fault that came then, if one did.
type Taken = (usize, Option<usize>, Result<(), LineFault>);

// Two pieces, taken one after the other as the example in the version with this number.
fn taken(version: u32, first: &[u8], second: &[u8]) -> Taken {
    let mut lines = Lines::new();
    let mut ended = Ended {
        version,
        count: 0,
        other: None,
    };
    for piece in [first, second] {
        if let Err(fault) = feed(&mut lines, piece, &mut ended) {
            return (ended.count, ended.other, Err(fault));
        }
    }
    (ended.count, ended.other, lines.finish())
}

// The same of bytes that come one by one.
fn taken_by_bytes(version: u32, bytes: &[u8]) -> Taken {
    let mut lines = Lines::new();
    let mut ended = Ended {
        version,
        count: 0,
        other: None,
    };
    for at in 0..bytes.len() {
        if let Err(fault) = feed(&mut lines, &bytes[at..at + 1], &mut ended) {
            return (ended.count, ended.other, Err(fault));
        }
    }
    (ended.count, ended.other, lines.finish())
}

// The lines of the example, all of them.
const EXAMPLE: Taken = (12, None, Ok(()));

// A place where a text can be cut so that its lines are not those of the example, if there is one.
fn wrong_cut(version: u32, bytes: &[u8]) -> Option<usize> {
    for cut in 0..bytes.len() {
        if taken(version, &bytes[..cut], &bytes[cut..]) != EXAMPLE {
            return Some(cut);
        }
    }
    None
}

// Where the example can be cut so that its lines are others, if anywhere, and its lines if its bytes come one by one.
fn in_pieces(
    alloc: Global,
    version: u32,
    lines: &[&[u8]],
) -> Result<(Option<usize>, Taken), AllocError> {
    let text = variant_of(alloc, lines, 0, b"")?;
    Ok((wrong_cut(version, &text), taken_by_bytes(version, &text)))
}

#[test]
fn wherever_the_example_is_cut_its_lines_are_the_same(rt: HostRuntime) {
    let first = in_pieces(rt.alloc(), 1, &LINES);
    assert_eq!(rt; first, Ok((None, EXAMPLE)));
    let second = in_pieces(rt.alloc(), 2, &LINES2);
    assert_eq!(rt; second, Ok((None, EXAMPLE)));
}

// Whether the result is the same as for the whole text.
fn is_same(answer: Result<(), LineFault>, wanted: Option<DerivFault>) -> bool {
    match answer {
        Ok(()) => wanted == None,
        Err(LineFault::BadLine(n)) => wanted == Some(DerivFault::BadLine(n)),
        Err(LineFault::TooMany) => wanted == Some(DerivFault::TooMany),
    }
}

// A place at which cutting a text changes the result, among every 23rd byte, if there is one.
fn other_cut(bytes: &[u8], wanted: Option<DerivFault>) -> Option<usize> {
    for nth in 0..bytes.len() / 23 {
        let cut = 23 * nth;
        let (_, _, answer) = taken(1, &bytes[..cut], &bytes[cut..]);
        if !is_same(answer, wanted) {
            return Some(cut);
        }
    }
    None
}

// Whether a variant has its result whole, and wherever it is cut.
fn is_found(alloc: Global, lines: &[&[u8]], variant: Variant) -> bool {
    let (number, line, wanted) = variant;
    match variant_of(alloc, lines, number, line) {
        Ok(text) => reads_as(alloc, &text, wanted) && other_cut(&text, wanted).is_none(),
        Err(AllocError) => false,
    }
}

// The place of the first of these variants that has another result, whole or in pieces.
fn wrong_variant(alloc: Global, lines: &[&[u8]], variants: &[Variant]) -> Option<usize> {
    for at in 0..variants.len() {
        if !is_found(alloc, lines, variants[at]) {
            return Some(at);
        }
    }
    None
}

#[test]
fn a_variant_has_its_fault_whole_and_cut_at_each_23rd_byte(rt: HostRuntime) {
    assert_eq!(rt; wrong_variant(rt.alloc(), &LINES, &VARIANTS), None);
    assert_eq!(rt; wrong_variant(rt.alloc(), &LINES2, &VARIANTS2), None);
    assert_eq!(rt; wrong_variant(rt.alloc(), &[b""], &CRAFTED), None);
}

// Two pieces, and what is wrong with both.
type Cut = (&'static [u8], &'static [u8], Result<(), LineFault>);

const COUNTS: [Cut; 8] = [
    (
        b"rcap-derivation 1 64",
        b"0001 0\n",
        Err(LineFault::TooMany),
    ),
    (
        b"rcap-derivation 1 64",
        b"0001 0",
        Err(LineFault::BadLine(1)),
    ),
    (
        b"rcap-derivation 1 0 ",
        b"200001\n",
        Err(LineFault::TooMany),
    ),
    (
        b"rcap-derivation 2 0 ",
        b"200001\n",
        Err(LineFault::TooMany),
    ),
    (
        b"rcap-derivation 3 0 ",
        b"200001\n",
        Err(LineFault::BadLine(1)),
    ),
    (b"rcap-derivation 1 0 0\n", b"", Ok(())),
    (b"rcap-derivation ", b"2 0 0\n", Ok(())),
    (b"", b"", Err(LineFault::BadLine(1))),
];

// The place of the first cut with another result.
fn wrong_answer(cuts: &[Cut]) -> Option<usize> {
    for at in 0..cuts.len() {
        let (first, second, wanted) = cuts[at];
        let (_, _, answer) = taken(1, first, second);
        if answer != wanted {
            return Some(at);
        }
    }
    None
}

/// A call, and its result.
#[derive(Clone, Copy)]
enum Call {
    Next(&'static [u8], usize, Result<(usize, Option<Line>), LineFault>),
    Finish(Result<(), LineFault>),
}

// The place of the first call with another result, starting from no bytes.
fn wrong_call(calls: &[Call]) -> Option<usize> {
    let mut lines = Lines::new();
    for at in 0..calls.len() {
        let is_answered = match calls[at] {
            Call::Next(piece, from, wanted) => lines.next(piece, piece.len().min(from)) == wanted,
            Call::Finish(wanted) => lines.finish() == wanted,
        };
        if !is_answered {
            return Some(at);
        }
    }
    None
}

// The fault is returned again, whatever comes.
const PAST_127: [Call; 5] = [
    Call::Next(&[b'x'; 127], 0, Ok((127, None))),
    Call::Finish(Err(LineFault::BadLine(1))),
    Call::Next(b"x", 0, Err(LineFault::BadLine(1))),
    Call::Next(b"rcap-derivation 1 0 0\n", 0, Err(LineFault::BadLine(1))),
    Call::Finish(Err(LineFault::BadLine(1))),
];

const EMPTY: Line = Line::Head {
    version: 1,
    slots: 0,
    nodes: 0,
};

const WHOLE: [Call; 6] = [
    Call::Next(b"\nrcap-derivation 1 0 0\n", 1, Ok((23, Some(EMPTY)))),
    Call::Next(b"", 0, Ok((0, None))),
    Call::Finish(Ok(())),
    Call::Next(b"x", 0, Ok((1, None))),
    Call::Finish(Err(LineFault::BadLine(2))),
    Call::Next(b"\n", 0, Err(LineFault::BadLine(2))),
];

#[test]
fn counts_past_a_limit_and_line_ends_are_found_in_pieces(rt: HostRuntime) {
    assert_eq!(rt; wrong_answer(&COUNTS), None);
    assert_eq!(rt; wrong_call(&PAST_127), None);
    assert_eq!(rt; wrong_call(&WHOLE), None);
}
