//! Turns of a machine, and what is seen after them. A step that runs out of memory is done once more.
use pc_core::Core;
use pc_machine::{Access, Machine, Outcome, start};
use pc_test_inputs::{Wrong, core_of};
use std::alloc::{AllocError, Global};

/// The numbers of actors, objects, waiting messages and printed texts.
pub type Counts = (u32, u64, u64, usize);

/// What is seen after the turn of an actor: how many of each thing there are, and what the actor is about to touch.
pub type Seen = (Counts, Option<Access>);

/// The turn of an actor: the actor, how many steps it is given, how many of them move before one does not, how the last
/// one ends, and what is seen then.
pub type Turn = (u32, u32, (u32, Outcome), Seen);

/// A program, turns of it, and the first texts that it prints. How many it prints is seen after each turn.
pub type Program = (&'static [u8], &'static [Turn], &'static [&'static [u8]]);

/// Why a step has no outcome.
#[derive(Clone, Copy, Debug, PartialEq)]
pub enum Undone {
    /// Memory ran out, and something visible changed.
    Changed,
    /// Memory ran out twice.
    OutOfMemory,
}

type Ran = Result<(u32, Outcome), Undone>;

/// Why turns of a program do not have the results that they state.
#[derive(Clone, Copy, Debug, PartialEq)]
pub enum Unlike {
    /// The program has no machine.
    NoMachine(Wrong),
    /// The machine begins with these numbers.
    Begins(Counts),
    /// The turn at this place goes like this, and then this is seen.
    Turn(usize, Ran, Seen),
    /// Other texts are printed.
    Prints,
}

// A step, if the machine is small enough for one.
fn step(machine: &mut Machine<'_>, actor: u32) -> Result<Outcome, AllocError> {
    if machine.objects() < 4_194_304 && machine.waiting() < 4_194_304 {
        machine.step(actor)
    } else {
        Err(AllocError)
    }
}

fn seen_of(machine: &Machine<'_>, actor: u32) -> Seen {
    let texts = machine.printed().len();
    let counts = (
        machine.actors(),
        machine.objects(),
        machine.waiting(),
        texts,
    );
    (counts, machine.access(actor))
}

// How a step of an actor ends, tried once more if memory ran out, if nothing visible changes in between.
fn end_of(machine: &mut Machine<'_>, actor: u32) -> Result<Outcome, Undone> {
    let before = seen_of(machine, actor);
    if let Ok(first) = step(machine, actor) {
        return Ok(first);
    }
    if seen_of(machine, actor) != before {
        return Err(Undone::Changed);
    }
    step(machine, actor).or(Err(Undone::OutOfMemory))
}

// How many of these steps of an actor move before one does not, and how the last one ends.
fn run(machine: &mut Machine<'_>, actor: u32, steps: u32) -> Ran {
    for moved in 0..steps {
        let outcome = end_of(machine, actor)?;
        if outcome != Outcome::Moved {
            return Ok((moved, outcome));
        }
    }
    Ok((steps, Outcome::Moved))
}

// Whether these are the first texts that were printed, in order.
fn has_printed(machine: &Machine<'_>, texts: &[&[u8]]) -> bool {
    let printed = machine.printed().as_slice();
    printed.len() >= texts.len()
        && printed
            .iter()
            .zip(texts)
            .all(|(one, other)| one.as_slice() == *other)
}

// Checks that a machine begins with two actors, three objects and a waiting message, and that the turns of a program have
// the results that they state, one after another.
fn goes(machine: &mut Machine<'_>, program: &Program) -> Result<(), Unlike> {
    let (counts, _) = seen_of(machine, 0);
    if counts != (2, 3, 1, 0) {
        return Err(Unlike::Begins(counts));
    }
    let turns = program.1;
    for at in 0..turns.len() {
        let (actor, steps, wanted, after) = turns[at];
        let ran = run(machine, actor, steps);
        let seen = seen_of(machine, actor);
        if ran != Ok(wanted) || seen != after {
            return Err(Unlike::Turn(at, ran, seen));
        }
    }
    if has_printed(machine, program.2) {
        Ok(())
    } else {
        Err(Unlike::Prints)
    }
}

// The same of a core's machine.
fn goes_in_core(alloc: Global, core: &Core, program: &Program) -> Result<(), Unlike> {
    match start(alloc, core) {
        Ok(mut machine) => goes(&mut machine, program),
        Err(_) => Err(Unlike::NoMachine(Wrong::OutOfMemory)),
    }
}

// The same of a program.
fn goes_from_text(alloc: Global, program: &Program) -> Result<(), Unlike> {
    match core_of(alloc, program.0) {
        Ok(core) => goes_in_core(alloc, &core, program),
        Err(wrong) => Err(Unlike::NoMachine(wrong)),
    }
}

/// The place of the first of these programs that goes in another way, on the second try if it had no machine on the first,
/// and how.
pub fn wrong_program(alloc: Global, programs: &[Program]) -> Option<(usize, Unlike)> {
    for at in 0..programs.len() {
        let mut gone = goes_from_text(alloc, &programs[at]);
        if matches!(gone, Err(Unlike::NoMachine(_))) {
            gone = goes_from_text(alloc, &programs[at]);
        }
        if let Err(unlike) = gone {
            return Some((at, unlike));
        }
    }
    None
}
