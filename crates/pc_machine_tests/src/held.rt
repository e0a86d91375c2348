//! Values as the tables of the tests write them.
use pc_heap::{Address, Value};

/// A value that a field or a slot holds.
#[derive(Clone, Copy, PartialEq)]
pub enum Held<'t> {
    Number(u64),
    Truth(bool),
    Text(&'t [u8]),
    /// The value of a primitive, by its entity.
    Prim(u32),
    Object(Address),
}

/// Whether a table writes the value in this way.
pub fn is_written(value: &Value, held: Held<'_>) -> bool {
    match value {
        Value::Num(number) => held == Held::Number(*number),
        Value::Truth(truth) => held == Held::Truth(*truth),
        Value::Text(text) => match held {
            Held::Text(bytes) => text.has_bytes(bytes),
            Held::Number(_) | Held::Truth(_) | Held::Prim(_) | Held::Object(_) => false,
        },
        Value::Prim(entity) => held == Held::Prim(*entity),
        Value::At(address) => held == Held::Object(*address),
    }
}

/// Whether a place holds a value that is written in this way, or none.
pub fn holds(place: Option<&Value>, wanted: Option<Held<'_>>) -> bool {
    match (place, wanted) {
        (Some(value), Some(held)) => is_written(value, held),
        (None, None) => true,
        (Some(_), None) | (None, Some(_)) => false,
    }
}
