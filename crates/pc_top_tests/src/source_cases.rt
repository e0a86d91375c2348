//! Commands on a source and its derivation: what is one call of `put`, and what a command does if a read or a write fails.

use crate::programs::{FIRST, SECOND};
use crate::running::{Command, NONE, Row, all_do};
use pc_test_inputs::programs::{HELLO, ONE_OBJECT};

/// `ONE_OBJECT` in the one layout.
const PRINTED: &[u8] = b"\
class C

actor Main
  new create(env: Env) =>
    let a: C iso = C
";

/// The explanation of a source that has no Main.
const NO_MAIN: &[u8] = b"\
a.pony: no Main
rule main: a program has one actor `Main` with `new create(env: Env)`, and this file has no entity of that name
hint: add `actor Main` with `new create(env: Env) => None`
";

/// A node at which no rule holds: an `iso` would have a second name.
const SECOND_NAME: &[u8] = b"\
class C
actor Main
  new create(env: Env) =>
    let a: C iso = C
    let b: C iso = a
";

/// A program on one line.
const LINE: &[u8] = b"actor Main new create(env: Env) => env.out.print(\"a\\tb\") // x\n";

/// An actor with a behaviour that nothing sends.
const STOPS: &[u8] = b"\
actor A
  be go() => None
  be stop() => None
actor Main
  new create(env: Env) => A().go()
";

/// A class whose added constructor sets a field.
const CELL: &[u8] = b"\
class Cell
  var n: U64 = 5
actor Main
  new create(env: Env) =>
    let c: Cell iso = Cell
    c.n = 6
";

const CHECK: &[Row<'_>] = &[
    (0, NONE, NONE, 0, (FIRST, 1), (b"", 0)),
    (0, (1, 1), NONE, 10, (b"r", 1), (b"", 0)),
    (1, NONE, NONE, 9, (b"", 0), (b"a.pony: cannot be read\n", 1)),
    (1, NONE, (1, 3), 10, (b"", 0), (b"a.p", 1)),
    (0, (1, 0), NONE, 10, (b"", 1), (b"", 0)),
    (0, (1, 4), NONE, 10, (b"rcap", 1), (b"", 0)),
];

const JUDGE: &[Row<'_>] = &[
    (0, NONE, NONE, 0, (b"accepted\n", 1), (b"", 0)),
    (0, (1, 1), NONE, 10, (b"a", 1), (b"", 0)),
    (1, NONE, NONE, 9, (b"", 0), (b"a.pony: cannot be read\n", 1)),
    (2, NONE, NONE, 9, (b"", 0), (b"a.der: cannot be read\n", 1)),
];

const UPGRADE: &[Row<'_>] = &[
    (0, NONE, NONE, 0, (SECOND, 1), (b"", 0)),
    (0, (1, 1), NONE, 10, (b"r", 1), (b"", 0)),
    (1, NONE, NONE, 9, (b"", 0), (b"a.pony: cannot be read\n", 1)),
    (2, NONE, NONE, 9, (b"", 0), (b"a.der: cannot be read\n", 1)),
    // The derivation is one read.
    (3, NONE, NONE, 0, (SECOND, 1), (b"", 0)),
    (0, (1, 0), NONE, 10, (b"", 1), (b"", 0)),
    (0, (1, 17), NONE, 10, (b"rcap-derivation 2", 1), (b"", 0)),
    // There is no second call on out whose failure would be reported.
    (0, (2, 0), NONE, 0, (SECOND, 1), (b"", 0)),
];

const SHOW_OBJECT: &[Row<'_>] = &[
    (0, NONE, NONE, 0, (PRINTED, 1), (b"", 0)),
    (0, (1, 1), NONE, 10, (b"c", 1), (b"", 0)),
];

const EXPLAIN_NO_MAIN: &[Row<'_>] = &[
    (0, NONE, NONE, 0, (NO_MAIN, 1), (b"", 0)),
    (0, (1, 1), NONE, 10, (b"a", 1), (b"", 0)),
];

const SENDS_HELLO: &[Row<'_>] = &[
    (
        0,
        NONE,
        NONE,
        0,
        (b"Main sends OutStream.print\n", 1),
        (b"", 0),
    ),
    (0, (1, 1), NONE, 10, (b"M", 1), (b"", 0)),
];

const CHECK_NOTHING: &[Row<'_>] = &[
    (0, NONE, NONE, 3, (b"", 0), (b"a.pony:1:1: unexpected\n", 1)),
    (0, NONE, (1, 2), 10, (b"", 0), (b"a.", 1)),
    (0, NONE, (1, 3), 10, (b"", 0), (b"a.p", 1)),
];

const CHECK_GONE: &[Row<'_>] = &[
    (
        0,
        NONE,
        NONE,
        9,
        (b"", 0),
        (b"gone.pony: cannot be read\n", 1),
    ),
    (0, NONE, (1, 2), 10, (b"", 0), (b"go", 1)),
];

const NO_WORDS: &[Row<'_>] = &[
    (
        0,
        NONE,
        NONE,
        2,
        (b"", 0),
        (b"usage: rcap COMMAND ARGUMENT ...\n", 1),
    ),
    (0, NONE, (1, 2), 10, (b"", 0), (b"us", 1)),
];

const JUDGE_NOTHING: &[Row<'_>] = &[(2, NONE, NONE, 3, (b"", 0), (b"a.pony:1:1: unexpected\n", 1))];

const UPGRADE_NOTHING: &[Row<'_>] = &[(0, (1, 0), (1, 7), 10, (b"", 0), (b"a.der:1", 1))];

const EXPLAIN_SECOND_NAME: &[Row<'_>] = &[
    (1, NONE, NONE, 9, (b"", 0), (b"a.pony: cannot be read\n", 1)),
    (0, (1, 0), NONE, 10, (b"", 1), (b"", 0)),
    (0, (1, 19), NONE, 10, (b"a.pony:5:5: no rule", 1), (b"", 0)),
];

const SHOW_LINE: &[Row<'_>] = &[
    (1, NONE, NONE, 9, (b"", 0), (b"a.pony: cannot be read\n", 1)),
    (0, (1, 0), NONE, 10, (b"", 1), (b"", 0)),
    (0, (1, 5), NONE, 10, (b"actor", 1), (b"", 0)),
];

const SENDS_STOPS: &[Row<'_>] = &[
    (1, NONE, NONE, 9, (b"", 0), (b"a.pony: cannot be read\n", 1)),
    (0, (1, 0), NONE, 10, (b"", 1), (b"", 0)),
    (0, (1, 10), NONE, 10, (b"Main sends", 1), (b"", 0)),
    // There is no second call on out whose failure would be reported.
    (
        0,
        (2, 0),
        NONE,
        0,
        (b"Main sends A.go\nMain sends A.create\nnever A.stop\n", 1),
        (b"", 0),
    ),
];

const PLACES: &[Row<'_>] = &[
    (1, NONE, NONE, 9, (b"", 0), (b"a.pony: cannot be read\n", 1)),
    (0, (1, 0), NONE, 10, (b"", 1), (b"", 0)),
    (0, (1, 11), NONE, 10, (b"rcap-places", 1), (b"", 0)),
];

const COMMANDS: &[Command<'_>] = &[
    (&["check", "a.pony"], ONE_OBJECT, b"", CHECK),
    (&["judge", "a.pony", "a.der"], ONE_OBJECT, FIRST, JUDGE),
    (&["upgrade", "a.pony", "a.der"], ONE_OBJECT, FIRST, UPGRADE),
    (&["show", "a.pony"], ONE_OBJECT, b"", SHOW_OBJECT),
    (&["explain", "a.pony"], b"class C\n", b"", EXPLAIN_NO_MAIN),
    (&["sends", "a.pony"], HELLO, b"", SENDS_HELLO),
    (&["check", "a.pony"], b"", b"", CHECK_NOTHING),
    (&["check", "gone.pony"], b"", b"", CHECK_GONE),
    (&[], b"", b"", NO_WORDS),
    (&["judge", "a.pony", "a.der"], b"", b"", JUDGE_NOTHING),
    (
        &["upgrade", "a.pony", "a.der"],
        ONE_OBJECT,
        b"",
        UPGRADE_NOTHING,
    ),
    (
        &["explain", "a.pony"],
        SECOND_NAME,
        b"",
        EXPLAIN_SECOND_NAME,
    ),
    (&["show", "a.pony"], LINE, b"", SHOW_LINE),
    (&["sends", "a.pony"], STOPS, b"", SENDS_STOPS),
    (&["places", "a.pony"], CELL, b"", PLACES),
];

// No call on out has a second text, so a failure of the second is none.
#[test]
fn each_text_is_one_call(rt: HostRuntime) {
    all_do(&rt, rt.alloc(), COMMANDS);
}
