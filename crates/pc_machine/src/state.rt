//! What a machine changes.

use crate::actors::Actors;
use pc_base::List;
use pc_heap::Heap;

/// The objects, the actors and the printed texts of a machine.
#[derive(Drop)]
pub struct State {
    pub heap: Heap,
    pub actors: Actors,
    pub printed: List<List<u8>>,
}
