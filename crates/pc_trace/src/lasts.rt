//! The last accesses to each field.
ghost use Rattle.std.specs.Prelude.{◌≡◌, ◌≢◌, [], OnOk};
ghost use Rattle.pc_trace.specs.declared.lasts.Spot.{Spot};
ghost use Rattle.pc_trace.specs.Lasts.{row_of};

use pc_base::List;
use pc_heap::Address;
use std::alloc::{AllocError, Global};
use std::collections::HashMap;
use std::marker::Model;

/// A field of an object.
#[derive(Clone, Copy, Debug, PartialEq, Eq, Hash, Drop)]
pub struct Spot {
    pub maker: u32,
    pub serial: u32,
    pub field: u32,
}

/// The field of the object at an address.
pub fn field_spot(address: Address, field: u32) -> Spot
    ensures { result ≡ record { maker = address.maker; serial = address.serial; field = field } }
{
    Spot {
        maker: address.maker,
        serial: address.serial,
        field,
    }
}

/// For each field, the places that matter in the list of accesses.
#[derive(Drop)]
pub struct Lasts {
    rows: HashMap<Spot, List<u32>>,
    alloc: Global,
}

impl Model for Lasts {
    ghost use Rattle.pc_trace.specs.Lasts.{RowList};

    ghost Value = { RowList };

    ghost view = { λ lasts. lasts.rows.entries };
}

impl Lasts {
    /// No field has been touched. It does not allocate.
    pub fn new(alloc: Global) -> Lasts
        ensures { result ≡ [] }
    {
        Lasts {
            rows: HashMap::new(alloc),
            alloc,
        }
    }

    /// The places of a field.
    pub fn take(&mut self, spot: Spot) -> List<u32>
        ensures row { result ≡ row_of self.old spot }
        ensures others { (other : Spot) → other ≢ spot → row_of self.new other ≡ row_of self.old other }
    {
        match self.rows.remove(&spot) {
            Some(row) => row,
            None => List::new(self.alloc),
        }
    }

    /// Replaces the places of a field.
    pub fn put(&mut self, spot: Spot, row: List<u32>) -> Result<(), AllocError>
        ensures row { OnOk result (row_of self.new spot ≡ row) }
        ensures others { OnOk result ((other : Spot) → other ≢ spot → row_of self.new other ≡ row_of self.old other) }
    {
        self.rows.insert(spot, row)?;
        Ok(())
    }
}
