//! The table of what conforms to what, which a core has once it is elaborated.
use pc_core::Core;
use pc_test_inputs::{Wrong, core_of};
use std::alloc::Global;

/// An interface, a class that has what it declares, one that lacks it, and `Main`: the entities 6 to 9.
const SHAPES: &[u8] =
    b"interface Shape\n  fun area(): U64\nclass Square\n  fun area(): U64 => 4\nclass Point\n  fun size(): U64 => 0\nactor Main\n  new create(env: Env) => None\n";

const SHAPE: u32 = 6;

const SQUARE: u32 = 7;

const POINT: u32 = 8;

const MAIN: u32 = 9;

/// An entity, and what the table says of it and the interface.
type Row = (u32, Option<bool>);

// The first of these entities of which the table of a core says something else, and what it says.
fn other_row(core: &Core, rows: &[Row]) -> Option<Row> {
    for (entity, known) in rows {
        let found = core.known_to_conform(*entity, SHAPE);
        if found != *known {
            return Some((*entity, found));
        }
    }
    None
}

// The same of the core of the text.
fn wrong_row(alloc: Global, rows: &[Row]) -> Result<Option<Row>, Wrong> {
    let core = core_of(alloc, SHAPES)?;
    Ok(other_row(&core, rows))
}

// It says nothing of an entity that is not there.
const ROWS: [Row; 5] = [
    (SHAPE, Some(true)),
    (SQUARE, Some(true)),
    (POINT, Some(false)),
    (MAIN, Some(false)),
    (MAIN + 1, None),
];

#[test]
fn table_says_which_entities_conform(rt: HostRuntime) {
    assert_eq!(rt; wrong_row(rt.alloc(), &ROWS), Ok(None));
}
