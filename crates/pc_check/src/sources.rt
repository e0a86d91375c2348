//! Where the masks that reach a node come from.
ghost use Rattle.std.specs.Prelude.{◌≡◌, ◌+◌, ◌<◌, Some, IfOk, map, length, slice_get};
ghost use Rattle.pc_rules.specs.Checks.{is_else};
ghost use Rattle.pc_check.specs.declared.sources.Source.TheVariants as source;
ghost use Rattle.pc_check.specs.Sources as spec;

use pc_core::{Core, Node, NodeKind};
use std::alloc::{AllocError, Global};

/// Where the masks that reach a node come from.
#[derive(Clone, Copy, Debug, PartialEq, Eq)]
pub(crate) enum Source {
    /// From the start of this method.
    Start(u32),
    /// From after this node.
    Behind(u32),
}

// The start of its method, for each node.
fn starts(alloc: Global, core: &Core) -> Result<Vec<Source>, AllocError>
    ensures { IfOk result (λ starts. starts.items ≡ map (λ x. source.Start x.method) core.now.nodes) }
{
    core.nodes()
        .iter()
        .map(|node| Source::Start(node.method))
        .collect(alloc)
}

// Whether the child with this index is an `else` branch.
fn is_else(kind: &NodeKind, index: usize) -> bool
    ensures { result ≡ is_else kind.now index }
{
    matches!(kind, NodeKind::If) && index == 2
}

// The source of a later child: for an `else` branch the condition, and for any other child the one before it.
fn later_source(parent: &Node, index: usize) -> Source
    requires later { 0 < index }
    requires child { index < length parent.now.children }
    ensures { spec.ComesLater parent.now index result }
{
    let children = parent.children.as_slice();
    if is_else(&parent.kind, index) {
        Source::Behind(children[0])
    } else {
        Source::Behind(children[index - 1])
    }
}

// The source of the child with this index. A first child has its parent's.
fn child_source(parent: &Node, source: Source, index: usize) -> Source
    requires { index < length parent.now.children }
    ensures { spec.PassesOn parent.now index source result }
{
    if index == 0 {
        source
    } else {
        later_source(parent, index)
    }
}

/// The source of this node.
pub(crate) fn source_at(sources: &[Source], number: usize) -> Source
    requires { number < length sources.now }
    ensures { slice_get sources.now number ≡ Some result }
{
    sources[number]
}

// Gives the children of this node their sources.
fn pass_on(core: &Core, sources: &mut [Source], number: usize)
    requires node { number < length core.now.nodes }
    requires filled { spec.Filled core.now sources.old (number + 1) }
    ensures { spec.Filled core.now sources.new number }
{
    core.formed();
    let node = &core.nodes()[number];
    let source = source_at(sources, number);
    let children = node.children.as_slice();
    for index in 0..children.len() {
        sources[children[index] as usize] = child_source(node, source, index);
    }
}

/// Where the masks that reach each node come from. They are found from the last node to the first, since a node's
/// parent comes after it.
pub(crate) fn sources(alloc: Global, core: &Core) -> Result<Vec<Source>, AllocError>
    ensures { IfOk result (λ sources. spec.Sourced core.now sources.items) }
{
    core.formed();
    let mut sources = starts(alloc, core)?;
    let mut left = core.nodes().len();
    while left > 0 {
        left -= 1;
        pass_on(core, &mut sources, left);
    }
    Ok(sources)
}
