//! The core of a text.
use crate::reasons::Wrong;
use crate::texts::tree_of;
use pc_core::Core;
use pc_elab::elaborate;
use pc_names::collect;
use std::alloc::Global;

/// The core of a text.
pub fn core_of(alloc: Global, text: &[u8]) -> Result<Core, Wrong> {
    let tree = tree_of(alloc, text)?;
    let names = collect(alloc, &tree)?;
    Ok(elaborate(alloc, &tree, &names)?)
}
