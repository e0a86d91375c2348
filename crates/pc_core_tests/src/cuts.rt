//! Wherever a derivation is cut, the answer is the same.
use crate::judgements::{judge_pieces, program};
use pc_core::Core;
use pc_deriv::LineFault;
use pc_feed::{Stream, StreamFault};
use pc_judge::JudgeFault;
use pc_referee::Rules;
use pc_test_inputs::{LINES, LINES2, Wrong, variant_of};
use std::alloc::{AllocError, Global};

// A place where a text can be cut so that it is not accepted, if there is one.
fn refused_cut(alloc: Global, core: &Core, bytes: &[u8]) -> Option<usize> {
    for cut in 0..bytes.len() {
        if judge_pieces(alloc, core, &bytes[..cut], &bytes[cut..]) != Some(Ok(())) {
            return Some(cut);
        }
    }
    None
}

// The place at which a text is refused if its bytes come one by one, if it is.
fn refused_byte(alloc: Global, core: &Core, bytes: &[u8]) -> Option<usize> {
    let mut stream = Stream::start(alloc, core);
    for at in 0..bytes.len() {
        if stream.feed(&bytes[at..at + 1], &mut Rules).is_err() {
            return Some(at);
        }
    }
    match stream.end() {
        Ok(()) => None,
        Err(_) => Some(bytes.len()),
    }
}

// Where a derivation can be cut so that it is not accepted as the program's, and where it is refused byte by byte.
fn refusals(alloc: Global, lines: &[&[u8]]) -> Result<(Option<usize>, Option<usize>), Wrong> {
    let text = variant_of(alloc, lines, 0, b"")?;
    let core = program(alloc)?;
    Ok((
        refused_cut(alloc, &core, &text),
        refused_byte(alloc, &core, &text),
    ))
}

#[test]
fn wherever_the_derivation_is_cut_it_is_accepted(rt: HostRuntime) {
    assert_eq!(rt; refusals(rt.alloc(), &LINES), Ok((None, None)));
    assert_eq!(rt; refusals(rt.alloc(), &LINES2), Ok((None, None)));
}

// A line of the derivation by its number, other bytes for it, and the resulting fault.
type Variant = (usize, &'static [u8], StreamFault);

const VARIANTS: [Variant; 6] = [
    (
        9,
        b"n new 6 ref 3 0 3 0\n",
        StreamFault::Invalid(JudgeFault::Node(3)),
    ),
    (5, b"s 6 val\n", StreamFault::Invalid(JudgeFault::Slot(3))),
    (
        1,
        b"rcap-derivation 1 4 8\n",
        StreamFault::Text(LineFault::BadLine(13)),
    ),
    (
        12,
        b"n body - 3 0 3 0",
        StreamFault::Text(LineFault::BadLine(12)),
    ),
    (2, b"s 06 ref\n", StreamFault::Text(LineFault::BadLine(2))),
    (
        1,
        b"rcap-derivation 1 640001 7\n",
        StreamFault::Text(LineFault::TooMany),
    ),
];

const VARIANTS2: [Variant; 8] = [
    (
        9,
        b"n new 6 ref 3 0 0 0\n",
        StreamFault::Invalid(JudgeFault::Node(3)),
    ),
    // The masks after the node, as in version 1.
    (
        6,
        b"n prim 0 val 1 0 1 0\n",
        StreamFault::Invalid(JudgeFault::Node(0)),
    ),
    (5, b"s 6 val\n", StreamFault::Invalid(JudgeFault::Slot(3))),
    (
        1,
        b"rcap-derivation 2 4 8\n",
        StreamFault::Text(LineFault::BadLine(13)),
    ),
    (
        1,
        b"rcap-derivation 3 4 7\n",
        StreamFault::Text(LineFault::BadLine(1)),
    ),
    (
        12,
        b"n body - 3 0 0 0",
        StreamFault::Text(LineFault::BadLine(12)),
    ),
    (2, b"s 06 ref\n", StreamFault::Text(LineFault::BadLine(2))),
    (
        1,
        b"rcap-derivation 2 640001 7\n",
        StreamFault::Text(LineFault::TooMany),
    ),
];

// A place where a text can be cut so that it does not have this fault, among every eleventh byte, if there is one.
fn other_cut(alloc: Global, core: &Core, bytes: &[u8], fault: StreamFault) -> Option<usize> {
    for nth in 0..bytes.len() / 11 {
        let cut = 11 * nth;
        if judge_pieces(alloc, core, &bytes[..cut], &bytes[cut..]) != Some(Err(fault)) {
            return Some(cut);
        }
    }
    None
}

// The same of a variant.
fn other_cut_of(
    alloc: Global,
    core: &Core,
    lines: &[&[u8]],
    variant: Variant,
) -> Result<Option<usize>, AllocError> {
    let (number, line, fault) = variant;
    let text = variant_of(alloc, lines, number, line)?;
    Ok(other_cut(alloc, core, &text, fault))
}

/// The place of a variant, and where it can be cut so that it does not have its fault.
type WrongCut = (usize, Option<usize>);

// The first variant that does not have its fault as a derivation of a program, wherever it is cut.
fn wrong_of(
    alloc: Global,
    core: &Core,
    lines: &[&[u8]],
    variants: &[Variant],
) -> Result<Option<WrongCut>, AllocError> {
    for at in 0..variants.len() {
        let cut = other_cut_of(alloc, core, lines, variants[at])?;
        if cut.is_some() {
            return Ok(Some((at, cut)));
        }
    }
    Ok(None)
}

// The same of the program.
fn wrong_variant(
    alloc: Global,
    lines: &[&[u8]],
    variants: &[Variant],
) -> Result<Option<WrongCut>, Wrong> {
    let core = program(alloc)?;
    Ok(wrong_of(alloc, &core, lines, variants)?)
}

#[test]
fn a_variant_cut_at_each_11th_byte_has_its_fault(rt: HostRuntime) {
    assert_eq!(rt; wrong_variant(rt.alloc(), &LINES, &VARIANTS), Ok(None));
    assert_eq!(rt; wrong_variant(rt.alloc(), &LINES2, &VARIANTS2), Ok(None));
}
