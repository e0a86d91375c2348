//! What the nodes of a part of a body have in common.
ghost use Rattle.std.specs.Prelude.{◌≡◌};
ghost use Rattle.pc_body_spec.specs.Bodies as spec;

use pc_resolve::Context;
use std::alloc::Global;

/// What stays the same while the nodes of a part of a body are emitted.
#[derive(Drop)]
pub(crate) struct Setting<'a> {
    pub(crate) alloc: Global,
    pub(crate) context: &'a Context,
    /// The number of the method.
    pub(crate) number: u32,
    /// The number of `recover` around this part.
    pub(crate) depth: u32,
}

impl<'a> Setting<'a> {
    /// The setting inside a `recover`.
    pub(crate) fn deeper(&self) -> Setting<'a>
        ensures context { result.context.now ≡ self.now.context.now }
        ensures number { result.number ≡ self.now.number }
        ensures depth { result.depth ≡ spec.deeper self.now.depth }
    {
        Setting {
            alloc: self.alloc,
            context: self.context,
            number: self.number,
            depth: self.depth.saturating_add(1),
        }
    }
}
