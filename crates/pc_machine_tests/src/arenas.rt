//! Arenas of more than one chunk.
ghost use Rattle.std.specs.Prelude.{◌≡◌, ◌+◌, ◌≤◌, length};

use pc_arena::Arena;
use std::alloc::{AllocError, Global};
use std::rc::Rc;

/// Pushes the numbers below `count`, and returns the place of the last one.
fn fill(arena: &mut Arena<u32>, count: u32) -> Option<u32>
    requires { count ≤ arena.old.spare }
    ensures { length arena.new.items ≡ length arena.old.items + count }
{
    let mut last = None;
    for number in 0..count {
        last = Some(arena.push(number));
    }
    last
}

/// The place of the last value that was pushed, and how many there are. What the place 0 held before it was exchanged, what
/// it holds then, and what the places 1, 255 and 256 hold. What the place 256 held before it was exchanged, and what the
/// last place holds then.
type FilledArena = ((Option<u32>, u32), (u32, u32, u32, u32, u32), (u32, u32));

// Pushes 300 values, and exchanges two of them, on both sides of a chunk's edge.
fn filled(arena: &mut Arena<u32>) -> FilledArena
    requires { 300 ≤ arena.old.spare }
{
    let last = fill(arena, 300);
    let count = arena.len();
    let first = arena.exchange(0, 9);
    let held = (
        first,
        *arena.get(0),
        *arena.get(1),
        *arena.get(255),
        *arena.get(256),
    );
    let other = arena.exchange(256, 7);
    ((last, count), held, (other, *arena.get(299)))
}

fn filled_with_300(alloc: Global) -> Result<FilledArena, AllocError> {
    let mut arena = Arena::new(alloc);
    match arena.reserve(300) {
        Ok(()) => Ok(filled(&mut arena)),
        Err(AllocError) => Err(AllocError),
    }
}

#[test]
fn pushed_values_stay_at_their_places(rt: HostRuntime) {
    let wanted = ((Some(299), 300), (0, 9, 1, 255, 256), (256, 299));
    assert_eq!(rt; filled_with_300(rt.alloc()), Ok(wanted));
}

/// Pushes a value, which counts its owners, this many times.
fn fill_with(arena: &mut Arena<Rc<u32>>, value: &Rc<u32>, count: u32) -> Result<(), AllocError>
    requires { count ≤ arena.old.spare }
    ensures { length arena.old.items ≤ length arena.new.items }
{
    for _ in 0..count {
        arena.push(value.clone()?);
    }
    Ok(())
}

/// How many values an arena has, and how many owners a value then has, before and after one of them is exchanged.
type CountedOwners = (u32, usize, usize);

// Puts a value into an arena 600 times, and exchanges the last of them.
fn counted(arena: &mut Arena<Rc<u32>>, value: &Rc<u32>) -> Result<CountedOwners, AllocError>
    requires { 600 ≤ arena.old.spare }
{
    fill_with(arena, value, 600)?;
    let count = arena.len();
    let owners = Rc::strong_count(value);
    if arena.len() > 599 {
        drop(arena.exchange(599, value.clone()?));
    }
    Ok((count, owners, Rc::strong_count(value)))
}

// The same in an arena that is then dropped.
fn counted_in_arena(alloc: Global, value: &Rc<u32>) -> Result<CountedOwners, AllocError> {
    let mut arena = Arena::new(alloc);
    arena.reserve(600)?;
    counted(&mut arena, value)
}

// The same, and how many owners a value has after the arena that held it 600 times.
fn dropped_600_times(alloc: Global) -> Result<(CountedOwners, usize), AllocError> {
    let value = Rc::new(alloc, 7)?;
    let counted = counted_in_arena(alloc, &value)?;
    Ok((counted, Rc::strong_count(&value)))
}

#[test]
fn each_value_is_dropped_once(rt: HostRuntime) {
    assert_eq!(rt; dropped_600_times(rt.alloc()), Ok(((600, 601, 601), 1)));
}

#[test]
fn room_is_no_value(rt: HostRuntime) {
    let mut arena: Arena<Rc<u32>> = Arena::new(rt.alloc());
    assert!(rt; arena.reserve(1000).is_ok());
    assert_eq!(rt; arena.len(), 0);
}
