//! Machines of accepted programs after the steps of lists of actors.
ghost use Rattle.std.specs.Prelude.{◌≤◌, length};
ghost use Rattle.pc_machine.specs.Limits.{list_limit};

use pc_check::check;
use pc_core::Core;
use pc_machine::Machine;
use pc_safe::{SafeFault, accepted_is_safe, accepted_runs};
use pc_test_inputs::programs::{HELLO, READERS};
use pc_test_inputs::{Wrong, core_of};
use std::alloc::{AllocError, Global};

/// A field of an object, and whether it is written.
type Touched = (u32, bool);

/// What is seen of a machine and of two of its actors: how many actors there are, how many texts are printed and how many
/// messages wait, and what both actors are about to touch, if it is one field of one object in the same way.
type Seen = (u32, usize, u64, Option<Touched>);

/// Why nothing is seen.
#[derive(Clone, Copy, Debug, PartialEq)]
enum NotSeen {
    /// The program is not run.
    NoRun(Wrong),
    /// The list is not run to its end.
    Cut,
    /// `accepted_runs` and `accepted_is_safe` do not agree.
    Unequal,
}

// What is seen of the machine after a list of actors, as a function returns it.
fn seen_of(
    ran: Result<Machine<'_>, SafeFault<'_>>,
    (one, other): (u32, u32),
) -> Result<Seen, NotSeen> {
    match ran {
        Ok(machine) => {
            let touched = match (machine.access(one), machine.access(other)) {
                (Some(one), Some(other)) if one == other => Some((one.field, one.write)),
                (Some(_), Some(_)) | (None, _) | (_, None) => None,
            };
            let printed = machine.printed().len();
            Ok((machine.actors(), printed, machine.waiting(), touched))
        }
        Err(_) => Err(NotSeen::Cut),
    }
}

// What is seen of an accepted core, if `accepted_runs` and `accepted_is_safe` agree.
fn seen_in_core(
    alloc: Global,
    core: &Core,
    actors: &[u32],
    two: (u32, u32),
) -> Result<Seen, NotSeen>
    requires { length actors.now ≤ list_limit }
{
    match check(alloc, core) {
        Ok(ann) => {
            let _notes = &ann.notes;
            let run = seen_of(accepted_runs(alloc, core, &ann, actors), two);
            let safe = seen_of(accepted_is_safe(alloc, core, &ann, actors), two);
            if run == safe {
                run
            } else {
                Err(NotSeen::Unequal)
            }
        }
        Err(_) => Err(NotSeen::NoRun(Wrong::NotAccepted)),
    }
}

/// The list of actors for these turns, each an actor and a number of steps.
pub fn list_of(alloc: Global, turns: &[(u32, u32)]) -> Result<Vec<u32>, AllocError> {
    let mut list = Vec::new(alloc);
    for (actor, times) in turns {
        list.resize(list.len().saturating_add(*times as usize), *actor)?;
    }
    Ok(list)
}

// The same of a program.
fn seen_in_program(
    alloc: Global,
    program: &[u8],
    actors: &[u32],
    two: (u32, u32),
) -> Result<Seen, NotSeen> {
    if actors.len() > 4_000_000 {
        return Err(NotSeen::NoRun(Wrong::PastLimit));
    }
    match core_of(alloc, program) {
        Ok(core) => seen_in_core(alloc, &core, actors, two),
        Err(wrong) => Err(NotSeen::NoRun(wrong)),
    }
}

// What is seen of the program of a row, after its turns.
fn seen_after(alloc: Global, row: &Row) -> Result<Seen, NotSeen> {
    match list_of(alloc, row.1) {
        Ok(actors) => seen_in_program(alloc, row.0, &actors, row.2),
        Err(_) => Err(NotSeen::NoRun(Wrong::OutOfMemory)),
    }
}

/// A program, its turns, two of its actors, and what is seen after them.
type Row = (&'static [u8], &'static [(u32, u32)], (u32, u32), Seen);

// The text waits for the stream and is then printed; and two actors are about to read the field of one object.
const ROWS: [Row; 3] = [
    (HELLO, &[(1, 10)], (0, 1), (2, 0, 1, None)),
    (HELLO, &[(1, 10), (0, 1)], (0, 1), (2, 1, 0, None)),
    (
        READERS,
        &[(1, 43), (2, 13), (3, 13), (2, 9), (3, 9)],
        (2, 3),
        (4, 0, 0, Some((0, false))),
    ),
];

// The place of the first of these rows that differs, and what is seen.
fn wrong_row(alloc: Global, rows: &[Row]) -> Option<(usize, Result<Seen, NotSeen>)> {
    for at in 0..rows.len() {
        let seen = seen_after(alloc, &rows[at]);
        if seen != Ok(rows[at].3) {
            return Some((at, seen));
        }
    }
    None
}

#[test]
fn what_is_printed_waits_or_is_about_to_be_touched_is_seen(rt: HostRuntime) {
    assert_eq!(rt; wrong_row(rt.alloc(), &ROWS), None);
}
