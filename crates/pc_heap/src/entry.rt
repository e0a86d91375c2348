//! Where the field values of an object are kept.
ghost use Rattle.std.specs.Prelude.{◌≡◌};
ghost use Rattle.pc_heap.specs.Entries.{entry_found};

use crate::rows::Rows;
use crate::value::Address;

/// Where an object's field values are kept: consecutive places of the arena.
#[derive(Clone, Copy, Drop)]
pub struct Entry {
    /// The object's address.
    pub address: Address,
    /// The number of its entity.
    pub entity: u32,
    /// The place of its first field.
    pub first: u32,
    /// How many fields it has.
    pub fields: u32,
}

/// The entry of the object at an address.
pub fn find(rows: &Rows, made: &Vec<Entry>, address: Address) -> Option<Entry>
    ensures { result ≡ entry_found rows.now made.now.items address }
{
    let number = rows.get(address.maker, address.serial)?;
    made.get(number as usize).copied()
}
