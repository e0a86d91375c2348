//! Schedules and their turns, by hand. Those that are no schedules, and their faults, are in `rows/hostile.py`.
use crate::long_texts::text_of;
use pc_sched::{Turn, read};
use std::alloc::Global;

/// An actor, and how many turns it takes.
type Row = (u32, u32);

// Whether these are the turns of the rows, this many times over.
fn are_turns(turns: &[Turn], rows: &[Row], count: usize) -> bool {
    for at in 0..turns.len() {
        match rows.get(at % rows.len().max(1)) {
            Some((actor, times))
                if turns[at]
                    == (Turn {
                        actor: *actor,
                        times: *times,
                    }) => {}
            _ => return false,
        }
    }
    turns.len() == rows.len().saturating_mul(count)
}

// Whether a text within the limit of bytes spells the turns of the rows, this many times over.
fn spells(alloc: Global, text: &[u8], rows: &[Row], count: usize) -> bool {
    if text.len() > 1_048_576 {
        return false;
    }
    match read(alloc, text) {
        Ok(turns) => are_turns(turns.as_slice(), rows, count),
        Err(_) => false,
    }
}

/// A text and its turns, and how often both come.
type Schedule = (&'static [u8], &'static [Row], usize);

// The last one has as many words as the limit of bytes allows.
const SCHEDULES: [Schedule; 9] = [
    (b"", &[], 1),
    (b" \t\r\n", &[], 1),
    (b"1*10 0", &[(1, 10), (0, 1)], 1),
    (b"7*5", &[(7, 5)], 1),
    (b"\n2\t3*4\r\n5*0 ", &[(2, 1), (3, 4), (5, 0)], 1),
    (b"0000000001*0000000002", &[(1, 2)], 1),
    (
        b"4294967295 4294967295*0",
        &[(4294967295, 1), (4294967295, 0)],
        1,
    ),
    (b"1*999999 2*0 1", &[(1, 999_999), (2, 0), (1, 1)], 1),
    (b"3 ", &[(3, 1)], 524_288),
];

// Whether a text that comes this often spells its turns.
fn is_schedule(alloc: Global, schedule: Schedule) -> bool {
    let (text, rows, count) = schedule;
    match text_of(alloc, &[(text, count)]) {
        Ok(whole) => spells(alloc, whole.as_slice(), rows, count),
        Err(_) => false,
    }
}

// The place of the first of these texts that does not spell its turns.
fn wrong_schedule(alloc: Global, schedules: &[Schedule]) -> Option<usize> {
    for at in 0..schedules.len() {
        if !is_schedule(alloc, schedules[at]) {
            return Some(at);
        }
    }
    None
}

#[test]
fn schedules(rt: HostRuntime) {
    assert_eq!(rt; wrong_schedule(rt.alloc(), &SCHEDULES), None);
}
