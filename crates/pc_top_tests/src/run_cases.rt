//! Commands that run a program: what is one call of `put`, and what a command does if a read or a write fails.

use crate::running::{Command, NONE, Row, all_do};
use pc_test_inputs::programs::{DOUBLES, HELLO, READERS};

const RUN_HELLO: &[Row<'_>] = &[
    (
        0,
        NONE,
        NONE,
        0,
        (b"hi\nsteps 11 skipped 0 actors 2 objects 3 waiting 0\n", 2),
        (b"", 0),
    ),
    (0, (1, 1), NONE, 10, (b"h", 1), (b"", 0)),
    (0, (2, 1), NONE, 10, (b"hi\ns", 2), (b"", 0)),
    // The text was written in full, and two bytes of the numbers.
    (0, (2, 2), NONE, 10, (b"hi\nst", 2), (b"", 0)),
];

const RUN_READERS: &[Row<'_>] = &[
    (
        0,
        NONE,
        NONE,
        0,
        (
            b"5\n5\nsteps 103 skipped 0 actors 4 objects 6 waiting 0\n",
            3,
        ),
        (b"", 0),
    ),
    (0, (1, 1), NONE, 10, (b"5", 1), (b"", 0)),
    (0, (2, 1), NONE, 10, (b"5\n5", 2), (b"", 0)),
    (0, (3, 1), NONE, 10, (b"5\n5\ns", 3), (b"", 0)),
];

const RUN_DOUBLES: &[Row<'_>] = &[
    (
        0,
        NONE,
        NONE,
        12,
        (b"go\n", 1),
        (b"a.sched: text too long at step 157\n", 1),
    ),
    (0, (1, 1), NONE, 10, (b"g", 1), (b"", 0)),
    (0, NONE, (1, 2), 10, (b"go\n", 1), (b"a.", 1)),
    (0, NONE, (1, 7), 10, (b"go\n", 1), (b"a.sched", 1)),
];

const MAKE: &[Row<'_>] = &[
    (
        0,
        NONE,
        NONE,
        0,
        (
            b"seed 0 size 1 nodes 37\n468\nsteps 62 skipped 740 actors 3 objects 5 waiting 0\n",
            3,
        ),
        (b"", 0),
    ),
    (0, (1, 1), NONE, 10, (b"s", 1), (b"", 0)),
    (
        0,
        (2, 1),
        NONE,
        10,
        (b"seed 0 size 1 nodes 37\n4", 2),
        (b"", 0),
    ),
    (
        0,
        (3, 1),
        NONE,
        10,
        (b"seed 0 size 1 nodes 37\n468\ns", 3),
        (b"", 0),
    ),
    (0, (1, 4), NONE, 10, (b"seed", 1), (b"", 0)),
    (
        0,
        (2, 0),
        NONE,
        10,
        (b"seed 0 size 1 nodes 37\n", 2),
        (b"", 0),
    ),
    (
        0,
        (3, 5),
        NONE,
        10,
        (b"seed 0 size 1 nodes 37\n468\nsteps", 3),
        (b"", 0),
    ),
];

const SWAP: &[Row<'_>] = &[
    (0, NONE, NONE, 0, (b"1*9 0 1\n", 1), (b"", 0)),
    (0, (1, 1), NONE, 10, (b"1", 1), (b"", 0)),
    (0, (1, 0), NONE, 10, (b"", 1), (b"", 0)),
    (0, (1, 4), NONE, 10, (b"1*9 ", 1), (b"", 0)),
    (1, NONE, NONE, 9, (b"", 0), (b"a.pony: cannot be read\n", 1)),
    (
        2,
        NONE,
        NONE,
        9,
        (b"", 0),
        (b"a.sched: cannot be read\n", 1),
    ),
];

const TRACE: &[Row<'_>] = &[
    (
        0,
        NONE,
        NONE,
        0,
        (b"8 1 read 0.1 0 clock 0,8\naccesses 1 ordered\n", 1),
        (b"", 0),
    ),
    (0, (1, 1), NONE, 10, (b"8", 1), (b"", 0)),
    (1, NONE, NONE, 9, (b"", 0), (b"a.pony: cannot be read\n", 1)),
    (
        2,
        NONE,
        NONE,
        9,
        (b"", 0),
        (b"a.sched: cannot be read\n", 1),
    ),
    (0, (1, 0), NONE, 10, (b"", 1), (b"", 0)),
    (0, (1, 8), NONE, 10, (b"8 1 read", 1), (b"", 0)),
    // There is no second call on out whose failure would be reported.
    (
        0,
        (2, 0),
        NONE,
        0,
        (b"8 1 read 0.1 0 clock 0,8\naccesses 1 ordered\n", 1),
        (b"", 0),
    ),
];

const RUN_HELLO_WAITING: &[Row<'_>] = &[
    (0, (1, 0), NONE, 10, (b"", 1), (b"", 0)),
    (0, (1, 2), NONE, 10, (b"hi", 1), (b"", 0)),
    (0, (2, 5), NONE, 10, (b"hi\nsteps", 2), (b"", 0)),
    (1, NONE, NONE, 9, (b"", 0), (b"a.pony: cannot be read\n", 1)),
    (
        2,
        NONE,
        NONE,
        9,
        (b"", 0),
        (b"a.sched: cannot be read\n", 1),
    ),
];

const EVENTS: &[Row<'_>] = &[
    (1, NONE, NONE, 9, (b"", 0), (b"a.pony: cannot be read\n", 1)),
    (
        2,
        NONE,
        NONE,
        9,
        (b"", 0),
        (b"a.sched: cannot be read\n", 1),
    ),
    (0, (1, 0), NONE, 10, (b"", 1), (b"", 0)),
    (0, (1, 8), NONE, 10, (b"1 1 take", 1), (b"", 0)),
];

const SCHEDULE: &[Row<'_>] = &[
    (0, (1, 4), NONE, 10, (b"1*10", 1), (b"", 0)),
    (1, NONE, NONE, 9, (b"", 0), (b"a.pony: cannot be read\n", 1)),
];

const PLAY: &[Row<'_>] = &[
    (0, (1, 2), NONE, 10, (b"hi", 1), (b"", 0)),
    (0, (2, 5), NONE, 10, (b"hi\nsteps", 2), (b"", 0)),
    (1, NONE, NONE, 9, (b"", 0), (b"a.pony: cannot be read\n", 1)),
];

const OUTCOMES: &[Row<'_>] = &[
    (0, (1, 6), NONE, 10, (b"seed 0", 1), (b"", 0)),
    (1, NONE, NONE, 9, (b"", 0), (b"a.pony: cannot be read\n", 1)),
];

const COMMANDS: &[Command<'_>] = &[
    (&["run", "a.pony", "a.sched"], HELLO, b"1*10 0", RUN_HELLO),
    (
        &["run", "a.pony", "a.sched"],
        READERS,
        b"1*43 2*13 3*13 2*9 3*9 2 3 2*6 3*6 0*2",
        RUN_READERS,
    ),
    (
        &["run", "a.pony", "a.sched"],
        DOUBLES,
        b"1*9 0 1*1000",
        RUN_DOUBLES,
    ),
    (&["make", "0", "1"], b"", b"", MAKE),
    (&["swap", "a.pony", "a.sched", "10"], HELLO, b"1*10 0", SWAP),
    (&["trace", "a.pony", "a.sched"], HELLO, b"1*10 0", TRACE),
    (
        &["run", "a.pony", "a.sched"],
        HELLO,
        b"1*9 0 1*1000",
        RUN_HELLO_WAITING,
    ),
    (&["events", "a.pony", "a.sched"], HELLO, b"1*10 0", EVENTS),
    (&["schedule", "a.pony", "0"], HELLO, b"", SCHEDULE),
    (&["play", "a.pony", "0"], HELLO, b"", PLAY),
    (&["outcomes", "a.pony", "1"], HELLO, b"", OUTCOMES),
];

#[test]
fn each_text_and_the_numbers_are_one_call(rt: HostRuntime) {
    all_do(&rt, rt.alloc(), COMMANDS);
}
