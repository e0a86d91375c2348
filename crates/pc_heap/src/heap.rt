//! The heap.
ghost use Rattle.std.specs.Prelude.{◌≡◌, ◌<◌, ◌≤◌, OnOk, OnErr, IfOk, IfErr, Some, None, option_copied, IsSome, IfSome};
ghost use Rattle.std.specs.FinMap as map;
ghost use Rattle.pc_heap.specs.Objects.{next_address, new_object, class_at, with_value};
ghost use Rattle.pc_heap.specs.Fields.{field_at, value_at};
ghost use Rattle.pc_heap.specs.Heaps.{object_limit, field_limit};

use crate::entry::{Entry, find};
use crate::room::{Room, push_empty};
use crate::rows::Rows;
use crate::value::{Address, Value};
use pc_arena::Arena;
use std::alloc::{AllocError, Global};
use std::marker::Model;

/// The objects of a run by their addresses, and room for the next one. The serials of a maker count up from 0. The
/// values of all fields are in one arena.
#[derive(Drop)]
pub struct Heap {
    made: Vec<Entry>,
    values: Arena<Option<Value>>,
    rows: Rows,
    room: Option<Room>,
}

impl Model for Heap {
    ghost use Rattle.std.specs.Prelude.{◌-◌};
    ghost use Rattle.pc_heap.specs.Heaps.{HeapData, coded_heap};
    ghost use Rattle.pc_heap.specs.Entries.{objects_of};
    ghost use Rattle.pc_heap.specs.Inside.{room_of, Sound};

    ghost Value = { HeapData };

    ghost coded = { coded_heap };

    ghost view = { λ heap. record { objects = objects_of heap.values.items heap.made.items; room = room_of heap.room } };

    ghost invariant = { λ heap. Sound heap.made.items (heap.made.cap - heap.made.len) heap.values.items heap.values.spare heap.rows (room_of heap.room) };
}

impl Heap {
    /// A heap without objects and without room. It cannot run out of memory.
    pub fn new(alloc: Global) -> Heap
        ensures objects { result.objects ≡ map.empty }
        ensures room { result.room ≡ None }
    {
        Heap {
            made: Vec::new(alloc),
            values: Arena::new(alloc),
            rows: Rows::new(alloc),
            room: None,
        }
    }

    /// How many objects there are.
    pub fn count(&self) -> u32
        ensures { result ≡ map.len self.now.objects }
    {
        self.made.len() as u32
    }

    /// Allocates everything that the next object of a maker will need, with this number of fields. If memory runs out,
    /// there is no room.
    pub fn reserve(&mut self, maker: u32, fields: u32) -> Result<(), AllocError>
        requires few { map.len self.old.objects < object_limit }
        requires small { fields ≤ field_limit }
        ensures objects { self.new.objects ≡ self.old.objects }
        ensures ok { OnOk result (self.new.room ≡ Some record { maker = maker; fields = fields }) }
        ensures err { OnErr result (self.new.room ≡ None) }
    {
        self.room = None;
        self.made.reserve(1)?;
        self.values.reserve(fields)?;
        self.rows.reserve(maker)?;
        self.room = Some(Room { maker, fields });
        Ok(())
    }

    /// The address that the next object will have, for which there is room. It cannot run out of memory.
    pub fn reserved(&self) -> Address
        requires { IsSome self.now.room }
        ensures { IfSome self.now.room (λ room. result ≡ next_address self.now.objects room.maker) }
    {
        match &self.room {
            Some(room) => Address {
                maker: room.maker,
                serial: self.rows.count(room.maker) as u32,
            },
            None => unreachable!(),
        }
    }

    /// Adds an object without field values in the room that was reserved for it, and returns its address. It cannot run
    /// out of memory.
    pub fn make(&mut self, maker: u32, entity: u32, fields: u32) -> Address
        requires { self.old.room ≡ Some record { maker = maker; fields = fields } }
        // The serial is the number of objects that the maker had made before.
        ensures address { result ≡ next_address self.old.objects maker }
        ensures free { map.get self.old.objects result ≡ None }
        ensures objects { self.new.objects ≡ map.insert self.old.objects result (new_object entity fields) }
        ensures room { self.new.room ≡ None }
    {
        let address = Address {
            maker,
            serial: self.rows.count(maker) as u32,
        };
        let first = self.values.len();
        push_empty(&mut self.values, fields);
        self.rows.push(maker, self.made.len() as u32);
        let entry = Entry {
            address,
            entity,
            first,
            fields,
        };
        match self.made.push(entry) {
            Ok(()) => {}
            Err(_) => unreachable!(),
        }
        self.room = None;
        address
    }

    /// The number of an object's entity. `None` iff there is no object. It cannot run out of memory.
    pub fn class_of(&self, address: Address) -> Option<u32>
        ensures { result ≡ class_at self.now.objects address }
    {
        Some(find(&self.rows, &self.made, address)?.entity)
    }

    /// The value in a field of an object. `None` iff there is no object, no such field or no value in it. It cannot run
    /// out of memory.
    pub fn get(&self, address: Address, field: u32) -> Option<&Value>
        ensures { option_copied result ≡ value_at self.now.objects address field }
    {
        let entry = find(&self.rows, &self.made, address)?;
        if field >= entry.fields {
            return None;
        }
        self.values.get(entry.first + field).as_ref()
    }

    /// Puts a value into a field of an object, and returns the old one. If there is no object or no such field, the
    /// value is handed back. It cannot run out of memory.
    pub fn set(
        &mut self,
        address: Address,
        field: u32,
        value: Value,
    ) -> Result<Option<Value>, Value>
        ensures ok { IfOk result (λ before. field_at self.old.objects address field ≡ Some before) }
        ensures new { OnOk result (self.new.objects ≡ with_value self.old.objects address field value) }
        ensures refused { OnErr result (field_at self.old.objects address field ≡ None) }
        ensures back { IfErr result (λ back. back ≡ value) }
        ensures same { OnErr result (self.new.objects ≡ self.old.objects) }
        ensures room { self.new.room ≡ self.old.room }
    {
        match find(&self.rows, &self.made, address) {
            Some(entry) => {
                if field >= entry.fields {
                    return Err(value);
                }
                Ok(self.values.exchange(entry.first + field, Some(value)))
            }
            None => Err(value),
        }
    }
}
