//! The events of a run.

use pc_base::List;
use pc_heap::Address;
use pc_semantics::Access;

/// What an event does, if it is more than a plain step of its actor. Methods and entities are named by their numbers in
/// the core.
#[derive(Clone, Copy, Debug, PartialEq, Eq)]
pub enum Deed {
    /// It takes a message of this method, which the event at the place `sent` sent. Places are counted from 1; 0 if no
    /// event did.
    Take { method: u32, sent: u64 },
    /// It sends this actor a message of this method.
    Send { receiver: u32, method: u32 },
    /// It makes this actor, for which a message of this method then waits.
    Make { actor: u32, method: u32 },
    /// It makes an object of this entity, at this address. The object is not an actor's own object.
    New { address: Address, entity: u32 },
    /// It reads or writes a field of an object.
    Touch(Access),
}

/// An event of a run that is more than a plain step, and what its actor knew then.
#[derive(Debug, Drop)]
pub struct RunEvent {
    /// The place of the event in the list, counted from 1.
    pub place: u64,
    /// The actor whose event it is.
    pub actor: u32,
    /// What it does.
    pub deed: Deed,
    /// For each actor that existed then, the number of its events that are this one or come before it.
    pub clock: List<u64>,
}
