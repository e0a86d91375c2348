//! A constructor that is run to its end. What runs out of memory is done once more.
use crate::heaps::made;
use crate::held::{Held, holds};
use pc_core::Core;
use pc_heap::{Address, Heap, Value};
use pc_semantics::{Frame, Outcome, Slots, Stack, Task, Tasks};
use pc_tasks::{is_inside, run_inside};
use pc_test_inputs::{Wrong, core_of};
use std::alloc::{AllocError, Global};

/// How a constructor ends.
#[derive(Clone, Copy, Debug, PartialEq)]
pub enum End {
    /// It comes to its Return, with one value on the stack, after a step that moved. The place of the first slot after
    /// its parameter that does not hold what it should.
    Returns(Option<usize>),
    /// It comes to a step with this number, counted from 1, which is its last and ends like this.
    Stops(u32, Outcome),
}

/// Why a constructor did not come to its end.
#[derive(Clone, Copy, Debug, PartialEq)]
pub enum Unended {
    /// There is no constructor, for this reason.
    NoMain(Wrong),
    /// Memory ran out twice.
    OutOfMemory,
    /// Memory ran out once, and something that is observed changed.
    Changed,
    /// It took 20,000 steps.
    Endless,
}

/// A text, how many fields its Main has, what the slots after the parameter of its constructor should hold at the end, and
/// how the constructor ends.
pub type Ending = (&'static [u8], u32, &'static [Held<'static>], End);

// What is observed of a frame: how many values it has, its first task, and how many of its slots, of which there are at
// most 64, hold something.
type State = (usize, Option<Task>, usize);

fn state_of(frame: &Frame) -> State {
    let held = (0..64)
        .filter(|slot| frame.slots.get(*slot).is_some())
        .count();
    (frame.stack.len(), frame.tasks.top(), held)
}

// How a step ends, tried once more if memory ran out.
fn step(
    alloc: Global,
    core: &Core,
    heap: &mut Heap,
    frame: &mut Frame,
) -> Result<Outcome, Unended> {
    if !is_inside(frame) {
        return Err(Unended::NoMain(Wrong::NotThere));
    }
    let before = state_of(frame);
    if let Ok(outcome) = run_inside(alloc, core, heap, frame) {
        return Ok(outcome);
    }
    if state_of(frame) == before {
        run_inside(alloc, core, heap, frame).or(Err(Unended::OutOfMemory))
    } else {
        Err(Unended::Changed)
    }
}

// How many steps there are up to the Return, or to the first that does not move, and how the last one ends.
fn last_outcome(
    alloc: Global,
    core: &Core,
    heap: &mut Heap,
    frame: &mut Frame,
) -> Result<(u32, Outcome), Unended> {
    let mut last = Outcome::Skipped;
    for before in 0..20_000 {
        if !is_inside(frame) {
            return Ok((before, last));
        }
        last = step(alloc, core, heap, frame)?;
        if last != Outcome::Moved {
            return Ok((before + 1, last));
        }
    }
    Err(Unended::Endless)
}

// The place of the first slot after the parameter of a constructor that does not hold the value that it should.
fn wrong_slot(frame: &Frame, wanted: &[Held<'_>]) -> Option<usize> {
    for place in 0..wanted.len() {
        if !holds(frame.slots.get(place + 2), Some(wanted[place])) {
            return Some(place);
        }
    }
    None
}

fn run(
    alloc: Global,
    core: &Core,
    heap: &mut Heap,
    frame: &mut Frame,
    wanted: &[Held<'_>],
) -> Result<End, Unended> {
    let (steps, last) = last_outcome(alloc, core, heap, frame)?;
    let is_at_return = frame.tasks.top() == Some(Task::Return) && frame.stack.len() == 1;
    if last == Outcome::Moved && is_at_return {
        Ok(End::Returns(wrong_slot(frame, wanted)))
    } else {
        Ok(End::Stops(steps, last))
    }
}

// The frame of the constructor of an object, about to begin. Its first slot holds the object.
fn frame_of(alloc: Global, this: Address, slots: u32, body: u32) -> Result<Frame, AllocError> {
    let mut tasks = Tasks::new(alloc);
    tasks.push(Task::Eval(body))?;
    let mut held = Vec::new(alloc);
    held.push(Some(Value::At(this)))?;
    Ok(Frame {
        method: 1,
        slots: Slots::new(held, (slots as usize).saturating_sub(1)),
        stack: Stack::new(alloc),
        tasks,
    })
}

// How the constructor of a core's Main ends, over a heap without objects.
fn run_main(
    alloc: Global,
    core: &Core,
    heap: &mut Heap,
    fields: u32,
    wanted: &[Held<'_>],
) -> Result<End, Unended> {
    let this = made(heap, 1, 6, fields).ok_or(Unended::OutOfMemory)?;
    let method = core.method_at(1).ok_or(Unended::NoMain(Wrong::NotThere))?;
    let body = method.body.ok_or(Unended::NoMain(Wrong::NotThere))?;
    match frame_of(alloc, this, method.slots, body) {
        Ok(mut frame) => run(alloc, core, heap, &mut frame, wanted),
        Err(_) => Err(Unended::OutOfMemory),
    }
}

// How the constructor of Main ends, if Main is the only entity of a text.
fn end_of(alloc: Global, ending: &Ending) -> Result<End, Unended> {
    let core = match core_of(alloc, ending.0) {
        Ok(core) => core,
        Err(wrong) => return Err(Unended::NoMain(wrong)),
    };
    let mut heap = Heap::new(alloc);
    run_main(alloc, &core, &mut heap, ending.1, ending.2)
}

/// The place of the first of these texts whose constructor ends in another way, on the second try if memory ran out before
/// the first step, and how it ends.
pub fn wrong_ending(alloc: Global, endings: &[Ending]) -> Option<(usize, Result<End, Unended>)> {
    for at in 0..endings.len() {
        let mut end = end_of(alloc, &endings[at]);
        if matches!(end, Err(Unended::NoMain(_) | Unended::OutOfMemory)) {
            end = end_of(alloc, &endings[at]);
        }
        if end != Ok(endings[at].3) {
            return Some((at, end));
        }
    }
    None
}
