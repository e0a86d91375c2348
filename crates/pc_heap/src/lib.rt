//! The objects of a run: values, their texts, addresses, and the heap that holds the objects by their addresses.
//! `specs/Heaps.antt` defines how contracts see a heap, and `specs/Texts.antt` the bytes of a text.
//!
//! Proved: A heap is a finite map from addresses to objects, and room for the next object. `reserve` may run out of
//! memory; `reserved`, `make`, `set`, `get` and `class_of` cannot, and their contracts state exactly what they find,
//! change and leave. A text is the list of its bytes: `Text::join` gives the bytes of both.
//!
//! Nothing is only tested: `pc_machine_tests` makes objects and lets allocations fail, which the contracts cover.
//!
//! Neither proved nor tested: that a joined text shares its bytes with the two texts, how many pieces it has, and that
//! memory goes back to the allocator.
//!
//! How the code is to be read is in `CONTRIBUTING.md` (How to read the code).
#![tactic(auto)]

mod entry;
mod heap;
mod pieces;
mod room;
mod rows;
mod text;
mod value;

pub use heap::Heap;
pub use text::Text;
pub use value::{Address, Value};
