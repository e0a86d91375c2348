//! What is reported of a run.

use pc_base::List;
use pc_heap::Address;

/// A field of an object that was read or written by an event of a run, and what its actor knew then.
#[derive(Debug, Drop)]
pub struct Touch {
    /// The place of the event in the list, counted from 1.
    pub place: u64,
    /// The actor whose event it is.
    pub actor: u32,
    /// The address of the object.
    pub address: Address,
    /// The index of the field.
    pub field: u32,
    /// Whether the field was written; otherwise it was read.
    pub write: bool,
    /// For each actor that existed then, the number of its events that are this one or come before it.
    pub clock: List<u64>,
}

/// Whether the conflicting events of a run are ordered.
#[derive(Clone, Copy, Debug, PartialEq, Eq)]
pub enum Verdict {
    /// Of any two events that conflict, the earlier one comes before the later one.
    Ordered,
    /// The event at the place `second` is the first one that conflicts with an earlier event that does not come before
    /// it, and the latest such event is at the place `first`. Places are counted from 1.
    Conflict { first: u64, second: u64 },
}

/// The accesses of a run, in order, and whether they are ordered.
#[derive(Debug, Drop)]
pub struct Trace {
    pub touches: List<Touch>,
    pub verdict: Verdict,
}
