//! Parts of bodies: their trees, where reading stops, levels and long chains.
use crate::long_texts::{Piece, text_of};
use crate::rows::{Row, other_row};
use pc_expr::{ParseFault, expr, infix, seq};
use pc_test_inputs::{Wrong, tokens_of};
use std::alloc::Global;

// The place of the first row of the tree of a text that is not as it should be, if there is one.
fn other_in(alloc: Global, text: &[u8], rows: &'static [Row]) -> Result<Option<usize>, Wrong> {
    let tokens = tokens_of(alloc, text)?;
    let tokens = tokens.as_slice();
    if tokens.is_empty() {
        return Err(Wrong::PastLimit);
    }
    let (tree, _) = seq(alloc, tokens, 0, 1)?;
    Ok(other_row(&tree, rows))
}

/// A text, and the rows of its tree.
type Tree = (&'static [u8], &'static [Row]);

// Whole sequences, each part with its first byte and the byte after its last.
const TREES: [Tree; 9] = [
    (
        b" a + b + 1 ",
        &[
            ("seq", 1, 10),
            ("+", 1, 10),
            ("name", 1, 2),
            ("name", 5, 6),
            ("number", 9, 10),
        ],
    ),
    (
        b"(a ; B)\n(\"\")",
        &[
            ("seq", 0, 12),
            ("group", 0, 7),
            ("seq", 1, 6),
            ("name", 1, 2),
            ("type name", 5, 6),
            ("group", 8, 12),
            ("seq", 9, 11),
            ("text", 9, 11),
        ],
    ),
    (
        b"a.b( c , this ) . d ()",
        &[
            ("seq", 0, 22),
            ("chain", 0, 22),
            ("name", 0, 1),
            ("dot", 2, 3),
            ("arguments", 3, 15),
            ("name", 5, 6),
            ("this", 9, 13),
            ("dot", 18, 19),
            ("arguments", 20, 22),
        ],
    ),
    (
        b"let x: T iso = y = 1",
        &[
            ("seq", 0, 20),
            ("let", 0, 20),
            ("=", 15, 20),
            ("name", 15, 16),
            ("number", 19, 20),
        ],
    ),
    (
        b"var x = not not true and consume y",
        &[
            ("seq", 0, 34),
            ("var", 0, 34),
            ("and", 8, 34),
            ("not", 8, 20),
            ("not", 12, 20),
            ("truth", 16, 20),
            ("consume", 25, 34),
        ],
    ),
    (
        b"if a then b elseif c then d; e else f end",
        &[
            ("seq", 0, 41),
            ("if", 0, 41),
            ("arm", 0, 11),
            ("seq", 3, 4),
            ("name", 3, 4),
            ("seq", 10, 11),
            ("name", 10, 11),
            ("arm", 12, 30),
            ("seq", 19, 20),
            ("name", 19, 20),
            ("seq", 26, 30),
            ("name", 26, 27),
            ("name", 29, 30),
            ("seq", 36, 37),
            ("name", 36, 37),
        ],
    ),
    (
        b"while a do b end",
        &[
            ("seq", 0, 16),
            ("while", 0, 16),
            ("seq", 6, 7),
            ("name", 6, 7),
            ("seq", 11, 12),
            ("name", 11, 12),
        ],
    ),
    (
        b"recover iso a end.b = c",
        &[
            ("seq", 0, 23),
            ("=", 0, 23),
            ("chain", 0, 19),
            ("recover", 0, 17),
            ("seq", 12, 13),
            ("name", 12, 13),
            ("dot", 18, 19),
            ("name", 22, 23),
        ],
    ),
    (
        b"a\n(b) isnt c",
        &[
            ("seq", 0, 12),
            ("name", 0, 1),
            ("isnt", 2, 12),
            ("group", 2, 5),
            ("seq", 3, 4),
            ("name", 3, 4),
            ("name", 11, 12),
        ],
    ),
];

/// The place of a text, and that of a row of its tree that is another, or why there is no tree.
type OtherRow = (usize, Result<Option<usize>, Wrong>);

// The first of these texts whose tree has other rows, or that has none.
fn wrong_tree(alloc: Global, trees: &[Tree]) -> Option<OtherRow> {
    for at in 0..trees.len() {
        let other = other_in(alloc, trees[at].0, trees[at].1);
        if other != Ok(None) {
            return Some((at, other));
        }
    }
    None
}

#[test]
fn trees(rt: HostRuntime) {
    assert_eq!(rt; wrong_tree(rt.alloc(), &TREES), None);
}

/// What is to be read.
#[derive(Clone, Copy)]
enum Part {
    Seq,
    Expr,
    Infix,
}

// How many tokens are read for a part of a text, from its beginning, at a level.
fn tokens_read(alloc: Global, part: Part, text: &[u8], level: u16) -> Result<usize, Wrong> {
    let tokens = tokens_of(alloc, text)?;
    let tokens = tokens.as_slice();
    if level > 200 || tokens.is_empty() {
        return Err(Wrong::PastLimit);
    }
    match part {
        Part::Seq => {
            let (tree, to) = seq(alloc, tokens, 0, level)?;
            drop(tree);
            Ok(to)
        }
        Part::Expr => {
            let (tree, to) = expr(alloc, tokens, 0, level)?;
            drop(tree);
            Ok(to)
        }
        Part::Infix => {
            let (tree, to) = infix(alloc, tokens, 0, level)?;
            drop(tree);
            Ok(to)
        }
    }
}

/// A part that is read from a text at a level, and how many tokens are read, or why none are.
type Stop = (Part, &'static [u8], u16, Result<usize, Wrong>);

// How many tokens are read, or the byte of the token at which none are.
const STOPS: [Stop; 36] = [
    (Part::Seq, b"a + b - c", 1, Ok(3)),
    (Part::Seq, b"a\n- b", 1, Ok(1)),
    (Part::Seq, b"a -\nb", 1, Ok(3)),
    (Part::Seq, b"a b", 1, Ok(1)),
    (Part::Seq, b"a\nb", 1, Ok(2)),
    (Part::Seq, b"a\n;\nb", 1, Ok(3)),
    (Part::Seq, b"f() = 1", 1, Ok(3)),
    (Part::Seq, b"a + b = 1", 1, Ok(3)),
    (Part::Seq, b"1 = 1", 1, Ok(1)),
    (Part::Seq, b"a.b.c = d = e", 1, Ok(9)),
    (Part::Seq, b"let a = 1 be", 1, Ok(4)),
    (Part::Expr, b"a; b", 1, Ok(1)),
    (Part::Expr, b"a = b", 1, Ok(3)),
    (Part::Infix, b"a = b", 1, Ok(1)),
    (
        Part::Infix,
        b"let a = b",
        1,
        Err(Wrong::NoTree(ParseFault::Unexpected(0))),
    ),
    (
        Part::Expr,
        b"let a = b",
        1,
        Err(Wrong::NoTree(ParseFault::Unexpected(0))),
    ),
    (
        Part::Seq,
        b"",
        1,
        Err(Wrong::NoTree(ParseFault::Unexpected(0))),
    ),
    (
        Part::Seq,
        b"(a",
        1,
        Err(Wrong::NoTree(ParseFault::Unexpected(2))),
    ),
    (
        Part::Seq,
        b"a;",
        1,
        Err(Wrong::NoTree(ParseFault::Unexpected(2))),
    ),
    (
        Part::Seq,
        b"f(a,)",
        1,
        Err(Wrong::NoTree(ParseFault::Unexpected(4))),
    ),
    (
        Part::Seq,
        b"if a then b",
        1,
        Err(Wrong::NoTree(ParseFault::Unexpected(11))),
    ),
    (
        Part::Seq,
        b"(a b)",
        1,
        Err(Wrong::NoTree(ParseFault::Unexpected(3))),
    ),
    (
        Part::Seq,
        b"recover tag\nend",
        1,
        Err(Wrong::NoTree(ParseFault::Unexpected(12))),
    ),
    (
        Part::Seq,
        b"not (",
        200,
        Err(Wrong::NoTree(ParseFault::TooDeep(0))),
    ),
    (
        Part::Seq,
        b"(;",
        200,
        Err(Wrong::NoTree(ParseFault::TooDeep(0))),
    ),
    (
        Part::Seq,
        b"+ (",
        200,
        Err(Wrong::NoTree(ParseFault::Unexpected(0))),
    ),
    (
        Part::Seq,
        b"f()",
        200,
        Err(Wrong::NoTree(ParseFault::TooDeep(1))),
    ),
    (Part::Seq, b"f()", 199, Ok(3)),
    (
        Part::Seq,
        b"a = b = c",
        199,
        Err(Wrong::NoTree(ParseFault::TooDeep(6))),
    ),
    (
        Part::Seq,
        b"if a then b elseif c then d else e end",
        199,
        Ok(11),
    ),
    (
        Part::Seq,
        b"if a then b end",
        200,
        Err(Wrong::NoTree(ParseFault::TooDeep(0))),
    ),
    (
        Part::Seq,
        b"while a do b end",
        200,
        Err(Wrong::NoTree(ParseFault::TooDeep(0))),
    ),
    (Part::Seq, b"while a do b end", 199, Ok(5)),
    (
        Part::Seq,
        b"recover a end",
        200,
        Err(Wrong::NoTree(ParseFault::TooDeep(0))),
    ),
    (Part::Seq, b"recover a end", 199, Ok(3)),
    (
        Part::Seq,
        b"a = b",
        200,
        Err(Wrong::NoTree(ParseFault::TooDeep(2))),
    ),
];

// The place of the first of these texts whose reading stops elsewhere, and where it does.
fn wrong_stop(alloc: Global, stops: &[Stop]) -> Option<(usize, Result<usize, Wrong>)> {
    for at in 0..stops.len() {
        let (part, text, level, wanted) = stops[at];
        let read = tokens_read(alloc, part, text, level);
        if read != wanted {
            return Some((at, read));
        }
    }
    None
}

/// The pieces of a text, the level at which it is read as a sequence, and how many tokens are read, or why none are.
type Long = (&'static [Piece], u16, Result<usize, Wrong>);

// Two hundred levels, and one more; and chains of operators, of suffixes and of arms.
const LONG: [Long; 6] = [
    (&[(b"(", 200), (b"a", 1), (b")", 200)], 0, Ok(401)),
    (
        &[(b"(", 200), (b"a", 1), (b")", 200)],
        1,
        Err(Wrong::NoTree(ParseFault::TooDeep(199))),
    ),
    (
        &[(b"(", 201), (b"a", 1)],
        0,
        Err(Wrong::NoTree(ParseFault::TooDeep(200))),
    ),
    (&[(b"a", 1), (b"+a", 99_999)], 1, Ok(199_999)),
    (&[(b"a", 1), (b".a", 99_999)], 1, Ok(199_999)),
    (
        &[
            (b"if a then a ", 1),
            (b"elseif a then a ", 49_998),
            (b"end", 1),
        ],
        1,
        Ok(199_997),
    ),
];

// How many tokens of these pieces are read as a sequence.
fn long_read(alloc: Global, pieces: &[Piece], level: u16) -> Result<usize, Wrong> {
    let text = text_of(alloc, pieces)?;
    tokens_read(alloc, Part::Seq, text.as_slice(), level)
}

// The place of the first of these long texts whose reading stops elsewhere, and where it does.
fn wrong_long(alloc: Global, long: &[Long]) -> Option<(usize, Result<usize, Wrong>)> {
    for at in 0..long.len() {
        let (pieces, level, wanted) = long[at];
        let read = long_read(alloc, pieces, level);
        if read != wanted {
            return Some((at, read));
        }
    }
    None
}

#[test]
fn stops(rt: HostRuntime) {
    assert_eq!(rt; wrong_stop(rt.alloc(), &STOPS), None);
}

#[test]
fn stops_of_long_texts(rt: HostRuntime) {
    assert_eq!(rt; wrong_long(rt.alloc(), &LONG), None);
}
