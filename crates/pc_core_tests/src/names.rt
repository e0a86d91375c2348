//! The names of files: their numbers, what is above them, and what no text spells.
use pc_base::{List, ShortBytes};
use pc_names::{NameFault, Names, collect};
use pc_test_inputs::{Wrong, core_of, tree_of};
use pc_tree::{Entity, File};
use std::alloc::{AllocError, Global};

const MAIN: &[u8] = b"actor Main\n  new create(env: Env) => None\n";

// The last digit of a number.
fn digit(number: u32) -> u8 {
    b'0' + (number % 10) as u8
}

fn put_name(text: &mut Vec<u8>, before: &[u8], number: u32) -> Result<(), AllocError> {
    let name = [b'T', digit(number / 100), digit(number / 10), digit(number)];
    text.extend_from_slice(before)?;
    text.extend_from_slice(&name)
}

fn put_chain(text: &mut Vec<u8>, count: u32) -> Result<(), AllocError> {
    put_name(text, b"trait ", 0)?;
    for next in 1..count {
        put_name(text, b" is ", next)?;
        put_name(text, b"\ntrait ", next)?;
    }
    text.extend_from_slice(b"\n")
}

// `Main`, and this many traits, each of which names the next one.
fn chain(alloc: Global, count: u32) -> Result<Vec<u8>, AllocError> {
    let mut text = Vec::from_slice(alloc, MAIN)?;
    put_chain(&mut text, count)?;
    Ok(text)
}

fn above_count(names: &Names, entity: u32) -> Option<usize> {
    Some(names.above(entity)?.len())
}

/// What is seen of the names of a chain.
#[derive(Clone, Copy, Debug, PartialEq)]
struct Seen {
    /// How many entities there are.
    entities: u32,
    /// The numbers of `None`, `Main` and the first trait.
    first: (Option<u32>, Option<u32>, Option<u32>),
    /// Those of the traits 998 and 999.
    last: (Option<u32>, Option<u32>),
    /// How many entities are above the entities 7, 1,005 and 1,006.
    above: (Option<usize>, Option<usize>, Option<usize>),
    /// How many texts there are.
    texts: u32,
    /// The number of the text `create`.
    create: Option<u32>,
}

fn seen_of(names: &Names) -> Seen {
    Seen {
        entities: names.entity_count(),
        first: (
            names.entity(b"None"),
            names.entity(b"Main"),
            names.entity(b"T000"),
        ),
        last: (names.entity(b"T998"), names.entity(b"T999")),
        above: (
            above_count(names, 7),
            above_count(names, 1_005),
            above_count(names, 1_006),
        ),
        texts: names.text_count(),
        create: names.text(b"create"),
    }
}

// What should be seen of a chain of 999 traits, before which comes `Main`.
const WHOLE_CHAIN: Seen = Seen {
    entities: 1_006,
    first: (Some(0), Some(6), Some(7)),
    last: (Some(1_005), None),
    above: (Some(998), Some(0), None),
    texts: 3,
    create: Some(2),
};

fn seen_in_file(alloc: Global, file: &File) -> Result<Seen, Wrong> {
    let names = collect(alloc, file)?;
    Ok(seen_of(&names))
}

fn seen_in_text(alloc: Global, text: &[u8]) -> Result<Seen, Wrong> {
    let file = tree_of(alloc, text)?;
    seen_in_file(alloc, &file)
}

fn seen_in_chain(alloc: Global, count: u32) -> Result<Seen, Wrong> {
    let text = chain(alloc, count)?;
    seen_in_text(alloc, &text)
}

#[test]
fn names_of_the_longest_chain(rt: HostRuntime) {
    assert_eq!(rt; seen_in_chain(rt.alloc(), 999), Ok(WHOLE_CHAIN));
}

const SHORT: &[u8] =
    b"actor Main\n  new create(env: Env) => None\ntrait T000 is T001\ntrait T001 is T002\ntrait T002\n  fun m()\n";

fn text_count(alloc: Global, text: &[u8]) -> Result<usize, Wrong> {
    let core = core_of(alloc, text)?;
    Ok(core.names().len())
}

#[test]
fn a_core_has_each_text_once(rt: HostRuntime) {
    assert_eq!(rt; text_count(rt.alloc(), SHORT), Ok(5));
}

// What is wrong with the names of a file.
fn fault_of(alloc: Global, file: &File) -> Option<NameFault> {
    collect(alloc, file).err()
}

// A file without entities, which no text spells.
fn fault_of_nothing(alloc: Global) -> Option<NameFault> {
    let entities = List::new(alloc);
    fault_of(alloc, &File { entities })
}

fn named(alloc: Global, mut entity: Entity, name: &[u8]) -> Result<Entity, AllocError> {
    entity.name.text = ShortBytes::from_slice(alloc, name)?;
    Ok(entity)
}

// The last entity of a file gets this name.
fn rename_last(alloc: Global, file: &mut File, name: &[u8]) -> Result<(), AllocError> {
    match file.entities.pop() {
        Some(entity) => file.entities.push(named(alloc, entity, name)?),
        None => Ok(()),
    }
}

// What is wrong with a file whose one actor is called `main`, which no text spells.
fn fault_of_small_main(alloc: Global) -> Result<Option<NameFault>, Wrong> {
    let mut file = tree_of(alloc, MAIN)?;
    rename_last(alloc, &mut file, b"main")?;
    Ok(fault_of(alloc, &file))
}

#[test]
fn a_file_without_a_main(rt: HostRuntime) {
    assert_eq!(rt; fault_of_nothing(rt.alloc()), Some(NameFault::NoMain));
    assert_eq!(rt;
        fault_of_small_main(rt.alloc()),
        Ok(Some(NameFault::NoMain))
    );
}
