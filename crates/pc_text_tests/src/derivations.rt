//! Derivations as texts. The expected values follow the format's description.
use pc_ann::{Ann, Note, Rule};
use pc_base::List;
use pc_caps::Form;
use pc_deriv::{DerivFault, read, write, write2};
use pc_masks::Mask;
use pc_test_inputs::{LINES, LINES2, NODES, NodeRow, SLOTS, Wrong, compared, note, variant_of};
use std::alloc::{AllocError, Global};

// The text of an annotation in version 2, or in version 1.
fn text_of(alloc: Global, second: bool, ann: &Ann) -> Result<List<u8>, Wrong> {
    if ann.slots.len() > 640_000 || ann.notes.len() > 200_000 {
        return Err(Wrong::PastLimit);
    }
    if second {
        Ok(write2(alloc, ann)?)
    } else {
        Ok(write(alloc, ann)?)
    }
}

/// Whether a text is read as it should be, or why it is not read; or why it is not what is written.
type RoundTrip = Result<Result<bool, DerivFault>, Wrong>;

// Whether a text is read as an annotation, if it is what is written for it in version 2, or in version 1.
fn goes_round(alloc: Global, second: bool, text: &[u8], ann: &Ann) -> RoundTrip {
    let found = text_of(alloc, second, ann)?;
    compared(found.as_slice(), text)?;
    match read(alloc, text) {
        Ok(again) => Ok(Ok(again == *ann)),
        Err(fault) => Ok(Err(fault)),
    }
}

// The annotation of the example's slots, with these nodes.
fn ann_of(alloc: Global, rows: &[NodeRow]) -> Result<Ann, AllocError> {
    let mut notes: List<Note> = List::new(alloc);
    for row in rows {
        notes.push(note(*row))?;
    }
    Ok(Ann {
        slots: List::from_slice(alloc, &SLOTS)?,
        notes,
    })
}

// The same of lines with another first line, and the annotation of the example's slots with these nodes.
fn lines_go_round(
    alloc: Global,
    second: bool,
    lines: &[&[u8]],
    first: &[u8],
    rows: &[NodeRow],
) -> RoundTrip {
    let text = variant_of(alloc, lines, 1, first)?;
    let ann = ann_of(alloc, rows)?;
    goes_round(alloc, second, &text, &ann)
}

const HEAD: &[u8] = b"rcap-derivation 1 4 7\n";

const HEAD2: &[u8] = b"rcap-derivation 2 4 7\n";

// The masks after a node taken for the bits that differ, and the bits that differ taken for the masks after it.
const OTHER_NODES: [NodeRow; 7] = [
    (Rule::Prim, Some((0, Form::Val)), 1, 0),
    (Rule::Seq, Some((0, Form::Val)), 1, 0),
    (Rule::Body, None, 1, 0),
    (Rule::New, Some((6, Form::IsoE)), 3, 0),
    (Rule::Define, None, 3, 4),
    (Rule::Seq, None, 3, 0),
    (Rule::Body, None, 3, 0),
];

#[test]
fn the_example_is_read_and_written_in_both_versions(rt: HostRuntime) {
    let alloc = rt.alloc();
    let found = lines_go_round(alloc, false, &LINES, HEAD, &NODES);
    assert_eq!(rt; found, Ok(Ok(true)));
    let found = lines_go_round(alloc, true, &LINES2, HEAD2, &NODES);
    assert_eq!(rt; found, Ok(Ok(true)));
    let found = lines_go_round(alloc, true, &LINES, HEAD2, &OTHER_NODES);
    assert_eq!(rt; found, Ok(Ok(true)));
    let found = lines_go_round(alloc, false, &LINES2, HEAD, &OTHER_NODES);
    assert_eq!(rt; found, Ok(Ok(true)));
}

/// The number of a line, other bytes for it, and what is wrong then.
pub type Variant = (usize, &'static [u8], Option<DerivFault>);

/// A line of the example with other bytes, and what is wrong then.
pub const VARIANTS: [Variant; 38] = [
    (9, b"n new 6 ref 3 0 3 0\n", None),
    (5, b"s 6 val\n", None),
    (5, b"s 4294967295 iso\n", None),
    (8, b"n body - ffffffffffffffff 0 1 0\n", None),
    (12, b"n body - 3 0 3", Some(DerivFault::BadLine(12))),
    (12, b"n body - 3 0 3 0", Some(DerivFault::BadLine(12))),
    (12, b"n body - 3 0 3 0\n\n", Some(DerivFault::BadLine(13))),
    (
        12,
        b"n body - 3 0 3 0\nn body - 3 0 3 0\n",
        Some(DerivFault::BadLine(13)),
    ),
    (12, b"", Some(DerivFault::BadLine(12))),
    (8, b"", Some(DerivFault::BadLine(12))),
    (5, b"", Some(DerivFault::BadLine(5))),
    (6, b"n prim 00 val 1 0 1 0\n", Some(DerivFault::BadLine(6))),
    (6, b"n prim 0 val 01 0 1 0\n", Some(DerivFault::BadLine(6))),
    (6, b"n  prim 0 val 1 0 1 0\n", Some(DerivFault::BadLine(6))),
    (6, b"n prim 0 val 1 0 1 0 \n", Some(DerivFault::BadLine(6))),
    (6, b"n prim 0 val 1 0 1\n", Some(DerivFault::BadLine(6))),
    (6, b"n prim 0 val 1 0 1 0 0\n", Some(DerivFault::BadLine(6))),
    (6, b"n prime 0 val 1 0 1 0\n", Some(DerivFault::BadLine(6))),
    (6, b"n Prim 0 val 1 0 1 0\n", Some(DerivFault::BadLine(6))),
    (7, b"n seq 0 val^ 1 0 1 0\n", Some(DerivFault::BadLine(7))),
    (8, b"n body -- 1 0 1 0\n", Some(DerivFault::BadLine(8))),
    (8, b"n body - A 0 1 0\n", Some(DerivFault::BadLine(8))),
    (
        8,
        b"n body - 10000000000000000 0 1 0\n",
        Some(DerivFault::BadLine(8)),
    ),
    (5, b"s  6 iso\n", Some(DerivFault::BadLine(5))),
    (5, b"s 06 iso\n", Some(DerivFault::BadLine(5))),
    (5, b"s 6 iso\r\n", Some(DerivFault::BadLine(5))),
    (5, b"s 6 iso^\n", Some(DerivFault::BadLine(5))),
    (5, b"s 4294967296 iso\n", Some(DerivFault::BadLine(5))),
    (5, b" s 6 iso\n", Some(DerivFault::BadLine(5))),
    (1, b"rcap-derivation 1 5 7\n", Some(DerivFault::BadLine(6))),
    (1, b"rcap-derivation 1 4 8\n", Some(DerivFault::BadLine(13))),
    (1, b"rcap-derivation 1 4 6\n", Some(DerivFault::BadLine(12))),
    (1, b"rcap-derivation 1 04 7\n", Some(DerivFault::BadLine(1))),
    (1, b"rcap-derivation 2 4 7\n", None),
    (1, b"rcap-derivation 3 4 7\n", Some(DerivFault::BadLine(1))),
    (1, b"rcap-derivation 01 4 7\n", Some(DerivFault::BadLine(1))),
    (1, b"rcap-derivation  1 4 7\n", Some(DerivFault::BadLine(1))),
    (1, b"rcap-derivation 1  4 7\n", Some(DerivFault::BadLine(1))),
];

/// A line of the example in version 2 with other bytes, and what is wrong then.
pub const VARIANTS2: [Variant; 25] = [
    (9, b"n new 6 ref 3 0 0 0\n", None),
    (8, b"n body - 1 0 ffffffffffffffff 1\n", None),
    (1, b"rcap-derivation 1 4 7\n", None),
    (1, b"rcap-derivation 3 4 7\n", Some(DerivFault::BadLine(1))),
    (1, b"rcap-derivation 02 4 7\n", Some(DerivFault::BadLine(1))),
    (1, b"rcap-derivation  2 4 7\n", Some(DerivFault::BadLine(1))),
    (1, b"rcap-derivation 2  4 7\n", Some(DerivFault::BadLine(1))),
    (1, b"rcap-derivation 2 04 7\n", Some(DerivFault::BadLine(1))),
    (1, b"rcap-derivation 2 4 07\n", Some(DerivFault::BadLine(1))),
    (1, b"rcap-derivation 2 5 7\n", Some(DerivFault::BadLine(6))),
    (1, b"rcap-derivation 2 4 8\n", Some(DerivFault::BadLine(13))),
    (1, b"rcap-derivation 2 4 6\n", Some(DerivFault::BadLine(12))),
    (5, b"s 06 iso\n", Some(DerivFault::BadLine(5))),
    (5, b"s  6 iso\n", Some(DerivFault::BadLine(5))),
    (6, b"n prim 00 val 1 0 0 0\n", Some(DerivFault::BadLine(6))),
    (6, b"n prim 0 val 01 0 0 0\n", Some(DerivFault::BadLine(6))),
    (6, b"n prim 0 val 1 0 00 0\n", Some(DerivFault::BadLine(6))),
    (6, b"n  prim 0 val 1 0 0 0\n", Some(DerivFault::BadLine(6))),
    (6, b"n prim 0 val 1 0  0 0\n", Some(DerivFault::BadLine(6))),
    (6, b"n prim 0 val 1 0 0 0 \n", Some(DerivFault::BadLine(6))),
    (6, b"n prim 0 val 1 0 0\n", Some(DerivFault::BadLine(6))),
    (
        8,
        b"n body - 1 0 10000000000000000 0\n",
        Some(DerivFault::BadLine(8)),
    ),
    (10, b"n define - 3 0 A 0\n", Some(DerivFault::BadLine(10))),
    (12, b"n body - 3 0 0 0", Some(DerivFault::BadLine(12))),
    (12, b"n body - 3 0 0 0\n\n", Some(DerivFault::BadLine(13))),
];

/// Texts that are no example, as variants of one line, and what is wrong with them.
pub const CRAFTED: [Variant; 13] = [
    (1, b"", Some(DerivFault::BadLine(1))),
    (1, b"\n", Some(DerivFault::BadLine(1))),
    (
        1,
        b"rcap-derivation 1 0 4294967296\n",
        Some(DerivFault::BadLine(1)),
    ),
    (
        1,
        b"rcap-derivation 3 640001 0\n",
        Some(DerivFault::BadLine(1)),
    ),
    (
        1,
        b"rcap-derivation 2 640001 0\n",
        Some(DerivFault::TooMany),
    ),
    (
        1,
        b"rcap-derivation 2 0 200001\n",
        Some(DerivFault::TooMany),
    ),
    (
        1,
        b"rcap-derivation 1 640001 0",
        Some(DerivFault::BadLine(1)),
    ),
    (
        1,
        b"rcap-derivation 1 640001 0\n",
        Some(DerivFault::TooMany),
    ),
    (
        1,
        b"rcap-derivation 1 0 200001\n",
        Some(DerivFault::TooMany),
    ),
    (
        1,
        b"rcap-derivation 1 640000 200000\n",
        Some(DerivFault::BadLine(2)),
    ),
    (1, b"rcap-derivation 1 0 0\n", None),
    (1, b"rcap-derivation 2 0 0\n", None),
    (1, b"rcap-derivation 0 0 0\n", Some(DerivFault::BadLine(1))),
];

/// Whether bytes are read, or have this fault.
pub fn reads_as(alloc: Global, bytes: &[u8], wanted: Option<DerivFault>) -> bool {
    match read(alloc, bytes) {
        Ok(_) => wanted == None,
        Err(fault) => wanted == Some(fault),
    }
}

/// Whether the version is the second, a rule, the live and the set masks before and after it, and the text of one note.
type NoteRow = (bool, Rule, [u64; 4], &'static [u8]);

// Each rule has its name.
const NAMES: [NoteRow; 31] = [
    (
        false,
        Rule::Number,
        [0, 31, 10, 0],
        b"rcap-derivation 1 0 1\nn number - 0 1f a 0\n",
    ),
    (
        false,
        Rule::Truth,
        [0, 31, 10, 0],
        b"rcap-derivation 1 0 1\nn truth - 0 1f a 0\n",
    ),
    (
        false,
        Rule::Text,
        [0, 31, 10, 0],
        b"rcap-derivation 1 0 1\nn text - 0 1f a 0\n",
    ),
    (
        false,
        Rule::Prim,
        [0, 31, 10, 0],
        b"rcap-derivation 1 0 1\nn prim - 0 1f a 0\n",
    ),
    (
        false,
        Rule::This,
        [0, 31, 10, 0],
        b"rcap-derivation 1 0 1\nn this - 0 1f a 0\n",
    ),
    (
        false,
        Rule::Local,
        [0, 31, 10, 0],
        b"rcap-derivation 1 0 1\nn local - 0 1f a 0\n",
    ),
    (
        false,
        Rule::Consume,
        [0, 31, 10, 0],
        b"rcap-derivation 1 0 1\nn consume - 0 1f a 0\n",
    ),
    (
        false,
        Rule::Get,
        [0, 31, 10, 0],
        b"rcap-derivation 1 0 1\nn get - 0 1f a 0\n",
    ),
    (
        false,
        Rule::GetOwn,
        [0, 31, 10, 0],
        b"rcap-derivation 1 0 1\nn getown - 0 1f a 0\n",
    ),
    (
        false,
        Rule::Put,
        [0, 31, 10, 0],
        b"rcap-derivation 1 0 1\nn put - 0 1f a 0\n",
    ),
    (
        false,
        Rule::PutOwn,
        [0, 31, 10, 0],
        b"rcap-derivation 1 0 1\nn putown - 0 1f a 0\n",
    ),
    (
        false,
        Rule::Define,
        [0, 31, 10, 0],
        b"rcap-derivation 1 0 1\nn define - 0 1f a 0\n",
    ),
    (
        false,
        Rule::Assign,
        [0, 31, 10, 0],
        b"rcap-derivation 1 0 1\nn assign - 0 1f a 0\n",
    ),
    (
        false,
        Rule::New,
        [0, 31, 10, 0],
        b"rcap-derivation 1 0 1\nn new - 0 1f a 0\n",
    ),
    (
        false,
        Rule::Spawn,
        [0, 31, 10, 0],
        b"rcap-derivation 1 0 1\nn spawn - 0 1f a 0\n",
    ),
    (
        false,
        Rule::Call,
        [0, 31, 10, 0],
        b"rcap-derivation 1 0 1\nn call - 0 1f a 0\n",
    ),
    (
        false,
        Rule::CallRecover,
        [0, 31, 10, 0],
        b"rcap-derivation 1 0 1\nn callrecover - 0 1f a 0\n",
    ),
    (
        false,
        Rule::Send,
        [0, 31, 10, 0],
        b"rcap-derivation 1 0 1\nn send - 0 1f a 0\n",
    ),
    (
        false,
        Rule::Builtin,
        [0, 31, 10, 0],
        b"rcap-derivation 1 0 1\nn builtin - 0 1f a 0\n",
    ),
    (
        false,
        Rule::Arith,
        [0, 31, 10, 0],
        b"rcap-derivation 1 0 1\nn arith - 0 1f a 0\n",
    ),
    (
        false,
        Rule::Compare,
        [0, 31, 10, 0],
        b"rcap-derivation 1 0 1\nn compare - 0 1f a 0\n",
    ),
    (
        false,
        Rule::Equal,
        [0, 31, 10, 0],
        b"rcap-derivation 1 0 1\nn equal - 0 1f a 0\n",
    ),
    (
        false,
        Rule::Join,
        [0, 31, 10, 0],
        b"rcap-derivation 1 0 1\nn join - 0 1f a 0\n",
    ),
    (
        false,
        Rule::Logic,
        [0, 31, 10, 0],
        b"rcap-derivation 1 0 1\nn logic - 0 1f a 0\n",
    ),
    (
        false,
        Rule::Lazy,
        [0, 31, 10, 0],
        b"rcap-derivation 1 0 1\nn lazy - 0 1f a 0\n",
    ),
    (
        false,
        Rule::Identity,
        [0, 31, 10, 0],
        b"rcap-derivation 1 0 1\nn identity - 0 1f a 0\n",
    ),
    (
        false,
        Rule::Seq,
        [0, 31, 10, 0],
        b"rcap-derivation 1 0 1\nn seq - 0 1f a 0\n",
    ),
    (
        false,
        Rule::If,
        [0, 31, 10, 0],
        b"rcap-derivation 1 0 1\nn if - 0 1f a 0\n",
    ),
    (
        false,
        Rule::While,
        [0, 31, 10, 0],
        b"rcap-derivation 1 0 1\nn while - 0 1f a 0\n",
    ),
    (
        false,
        Rule::Recover,
        [0, 31, 10, 0],
        b"rcap-derivation 1 0 1\nn recover - 0 1f a 0\n",
    ),
    (
        false,
        Rule::Body,
        [0, 31, 10, 0],
        b"rcap-derivation 1 0 1\nn body - 0 1f a 0\n",
    ),
];

// Version 2 has the bits in which masks differ. The set masks are the live ones swapped.
const MASKS: [NoteRow; 7] = [
    (
        true,
        Rule::Body,
        [0, 0, 0, 0],
        b"rcap-derivation 2 0 1\nn body - 0 0 0 0\n",
    ),
    (
        true,
        Rule::Body,
        [3, 3, 3, 3],
        b"rcap-derivation 2 0 1\nn body - 3 3 0 0\n",
    ),
    (
        true,
        Rule::Body,
        [3, 7, 7, 3],
        b"rcap-derivation 2 0 1\nn body - 3 7 4 4\n",
    ),
    (
        true,
        Rule::Body,
        [7, 3, 3, 7],
        b"rcap-derivation 2 0 1\nn body - 7 3 4 4\n",
    ),
    (
        true,
        Rule::Body,
        [5, 10, 10, 5],
        b"rcap-derivation 2 0 1\nn body - 5 a f f\n",
    ),
    (
        true,
        Rule::Body,
        [u64::MAX, 1, 1, u64::MAX],
        b"rcap-derivation 2 0 1\nn body - ffffffffffffffff 1 fffffffffffffffe fffffffffffffffe\n",
    ),
    (
        true,
        Rule::Body,
        [0, u64::MAX, u64::MAX, 0],
        b"rcap-derivation 2 0 1\nn body - 0 ffffffffffffffff ffffffffffffffff ffffffffffffffff\n",
    ),
];

fn note_goes_round(alloc: Global, row: NoteRow) -> RoundTrip {
    let (second, rule, masks, text) = row;
    let own = Note {
        rule,
        ty: None,
        live_before: Mask(masks[0]),
        set_before: Mask(masks[1]),
        live_after: Mask(masks[2]),
        set_after: Mask(masks[3]),
    };
    let notes = List::from_slice(alloc, &[own])?;
    let ann = Ann {
        slots: List::new(alloc),
        notes,
    };
    goes_round(alloc, second, text, &ann)
}

// The place of the first of these notes that is written or read differently, and how.
fn wrong_note(alloc: Global, rows: &[NoteRow]) -> Option<(usize, RoundTrip)> {
    for at in 0..rows.len() {
        let found = note_goes_round(alloc, rows[at]);
        if found != Ok(Ok(true)) {
            return Some((at, found));
        }
    }
    None
}

#[test]
fn each_rule_has_its_name_and_masks_their_form(rt: HostRuntime) {
    assert_eq!(rt; wrong_note(rt.alloc(), &NAMES), None);
    assert_eq!(rt; wrong_note(rt.alloc(), &MASKS), None);
}
