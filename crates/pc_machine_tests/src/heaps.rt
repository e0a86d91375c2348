//! A few objects, made and written by hand.
use crate::held::{Held, holds, is_written};
use pc_heap::{Address, Heap, Value};
use std::alloc::Global;

/// The address of an object that is made in a heap that has memory for it.
pub fn made(heap: &mut Heap, maker: u32, entity: u32, fields: u32) -> Option<Address> {
    if heap.count() >= 4_194_304 || fields > 512 {
        return None;
    }
    match heap.reserve(maker, fields) {
        Ok(()) => Some(heap.make(maker, entity, fields)),
        Err(_) => None,
    }
}

// An object's address: its maker and its serial.
type Place = (u32, u32);

fn at(place: Place) -> Address {
    Address {
        maker: place.0,
        serial: place.1,
    }
}

// What is done with a heap, or looked at in it.
#[derive(Clone, Copy)]
enum Act {
    // There are this many objects.
    Counts(u32),
    // Room is made for an object of a maker, with this many fields.
    Reserves(u32, u32),
    // A maker makes an object of an entity with this many fields, and it has this serial.
    Makes(u32, u32, u32, u32),
    // This is the entity of an object, if there is one.
    IsOf(Place, Option<u32>),
    // This is the value in a field, if there is one.
    Holds(Place, u32, Option<Held<'static>>),
    // A field takes a number, and held this before.
    Takes(Place, u32, u64, Option<Held<'static>>),
    // There is no such field, so the value that it was to take is handed back.
    Refuses(Place, u32),
}

fn takes(
    heap: &mut Heap,
    address: Address,
    field: u32,
    number: u64,
    before: Option<Held<'_>>,
) -> bool {
    match heap.set(address, field, Value::Num(number)) {
        Ok(held) => holds(held.as_ref(), before),
        Err(_) => false,
    }
}

fn comes_back(answer: Result<Option<Value>, Value>, sent: Held<'_>) -> bool {
    match answer {
        Ok(_) => false,
        Err(back) => is_written(&back, sent),
    }
}

fn refuses(heap: &mut Heap, address: Address, field: u32) -> bool {
    comes_back(heap.set(address, field, Value::Num(9)), Held::Number(9))
        && comes_back(
            heap.set(address, field, Value::Truth(true)),
            Held::Truth(true),
        )
        && comes_back(heap.set(address, field, Value::Prim(1)), Held::Prim(1))
}

// Whether an act has the result that it states.
fn goes(heap: &mut Heap, act: Act) -> bool {
    match act {
        Act::Counts(count) => heap.count() == count,
        Act::Reserves(maker, fields) => {
            heap.count() < 4_194_304 && fields <= 512 && heap.reserve(maker, fields).is_ok()
        }
        Act::Makes(maker, entity, fields, serial) => {
            made(heap, maker, entity, fields) == Some(at((maker, serial)))
        }
        Act::IsOf(place, entity) => heap.class_of(at(place)) == entity,
        Act::Holds(place, field, held) => holds(heap.get(at(place), field), held),
        Act::Takes(place, field, number, held) => takes(heap, at(place), field, number, held),
        Act::Refuses(place, field) => refuses(heap, at(place), field),
    }
}

// The place of the first of these acts that does not have the result that it states.
fn wrong_act(heap: &mut Heap, acts: &[Act]) -> Option<usize> {
    for at in 0..acts.len() {
        if !goes(heap, acts[at]) {
            return Some(at);
        }
    }
    None
}

// The places of the first of these lists that has such an act, and of the act. Each list has a new heap.
fn wrong_list(alloc: Global, lists: &[&[Act]]) -> Option<(usize, usize)> {
    for at in 0..lists.len() {
        let mut heap = Heap::new(alloc);
        if let Some(act) = wrong_act(&mut heap, lists[at]) {
            return Some((at, act));
        }
    }
    None
}

// An object has its entity and its fields.
const ONE_OBJECT: [Act; 12] = [
    Act::Counts(0),
    Act::Makes(4, 6, 1, 0),
    Act::Counts(1),
    Act::IsOf((4, 0), Some(6)),
    Act::Holds((4, 0), 0, None),
    Act::Takes((4, 0), 0, 7, None),
    Act::Holds((4, 0), 0, Some(Held::Number(7))),
    Act::Takes((4, 0), 0, 8, Some(Held::Number(7))),
    Act::Holds((4, 0), 0, Some(Held::Number(8))),
    Act::Refuses((4, 0), 1),
    Act::Refuses((4, 1), 0),
    Act::IsOf((4, 1), None),
];

// Each maker counts its own objects.
const SERIALS: [Act; 9] = [
    Act::Makes(1, 3, 0, 0),
    Act::Makes(0, 2, 2, 0),
    Act::Makes(1, 3, 1, 1),
    Act::Makes(4294967295, 9, 0, 0),
    Act::Makes(0, 5, 512, 1),
    Act::Counts(5),
    Act::IsOf((0, 1), Some(5)),
    Act::Takes((0, 1), 511, 1, None),
    Act::Holds((0, 1), 510, None),
];

// Room that is not used is no object.
const ROOM: [Act; 8] = [
    Act::Reserves(2, 3),
    Act::IsOf((2, 0), None),
    Act::Refuses((2, 0), 0),
    Act::Counts(0),
    Act::Makes(5, 1, 0, 0),
    Act::IsOf((2, 0), None),
    Act::Makes(2, 1, 1, 0),
    Act::Counts(2),
];

// There is no field after the last of many.
const MANY_FIELDS: [Act; 5] = [
    Act::Makes(4, 6, 300, 0),
    Act::Takes((4, 0), 299, 7, None),
    Act::Takes((4, 0), 299, 8, Some(Held::Number(7))),
    Act::Refuses((4, 0), 300),
    Act::Holds((4, 0), 0, None),
];

// The fields of one object are no fields of another.
const FIELDS_APART: [Act; 7] = [
    Act::Makes(0, 6, 300, 0),
    Act::Makes(1, 6, 300, 0),
    Act::Takes((0, 0), 299, 1, None),
    Act::Takes((1, 0), 0, 2, None),
    Act::Holds((0, 0), 299, Some(Held::Number(1))),
    Act::Holds((1, 0), 0, Some(Held::Number(2))),
    Act::Holds((1, 0), 1, None),
];

#[test]
fn acts_on_a_heap_have_the_results_that_they_state(rt: HostRuntime) {
    let lists: [&[Act]; 5] = [&ONE_OBJECT, &SERIALS, &ROOM, &MANY_FIELDS, &FIELDS_APART];
    assert_eq!(rt; wrong_list(rt.alloc(), &lists), None);
}
