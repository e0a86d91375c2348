//! The spans of the names of slots in the source.
ghost use Rattle.std.specs.Prelude.{◌≡◌, ◌+◌, ◌<◌, ◌≤◌, ◌^◌, find, length, slice_get, option_copied};
ghost use Rattle.pc_core.specs.CoreData.{node_end};
ghost use Rattle.pc_core.specs.Further.{own_nodes};
ghost use Rattle.pc_base.specs.Lists.{Ascends};
ghost use Rattle.pc_places.specs.Names as spec;
ghost use Rattle.pc_places.specs.Search.{IsAfter};
ghost use Rattle.pc_text_order.specs.Laws.{starts};

use pc_base::Span;
use pc_core::{Core, Method, Node, NodeKind, Slot, SlotKind};
use pc_token::Token;

// Whether a node defines the slot with this index.
fn defines(kind: &NodeKind, slot: u32) -> bool
    ensures { result ≡ spec.defines_slot slot kind.now }
{
    match kind.defined_slot() {
        Some(defined) => defined == slot,
        None => false,
    }
}

// The first of these nodes that defines the slot with this index.
fn first_definition(nodes: &[Node], slot: u32) -> Option<&Node>
    ensures { option_copied result ≡ find (λ n. spec.defines_slot slot n.kind) nodes.now }
{
    for node in nodes {
        if defines(&node.kind, slot) {
            return Some(node);
        }
    }
    None
}

// The nodes of a method.
fn nodes_of<'c>(core: &'c Core, method: &Method) -> &'c [Node]
    requires within { node_end method.now.first_node method.now.body ≤ length core.now.nodes }
    requires ordered { method.now.first_node ≤ node_end method.now.first_node method.now.body }
    requires few { length core.now.nodes < 2 ^ 32 }
    ensures { result.now ≡ own_nodes core.now method.now }
{
    match method.body {
        Some(body) => &core.nodes()[method.first_node as usize..body as usize + 1],
        None => &core.nodes()[method.first_node as usize..method.first_node as usize],
    }
}

// How many of these tokens start at this byte or before it.
fn count_until(tokens: &[Token], place: u32) -> usize
    requires { Ascends (starts tokens.now) }
    ensures { IsAfter tokens.now place result }
{
    let mut low: usize = 0;
    let mut high: usize = tokens.len();
    while low < high {
        let middle = low + (high - low) / 2;
        if tokens[middle].span.start <= place {
            low = middle + 1;
        } else {
            high = middle;
        }
    }
    low
}

// The token at a place of a list.
fn token_at(tokens: &[Token], at: usize) -> Option<&Token>
    ensures { option_copied result ≡ slice_get tokens.now at }
{
    tokens.get(at)
}

// The first of these tokens that starts after a byte.
fn token_after(tokens: &[Token], place: u32) -> Option<&Token>
    requires { Ascends (starts tokens.now) }
    ensures { option_copied result ≡ spec.token_after tokens.now place }
{
    token_at(tokens, count_until(tokens, place))
}

// The span of the name of the local with this index in a method.
fn local_place(core: &Core, tokens: &[Token], method: &Method, slot: u32) -> Option<Span>
    requires ascend { Ascends (starts tokens.now) }
    requires within { node_end method.now.first_node method.now.body ≤ length core.now.nodes }
    requires ordered { method.now.first_node ≤ node_end method.now.first_node method.now.body }
    ensures { result ≡ spec.local_place core.now tokens.now method.now slot }
{
    core.formed();
    let node = first_definition(nodes_of(core, method), slot)?;
    let token = token_after(tokens, node.span.start)?;
    Some(token.span)
}

// The span of the name of the parameter with this index in a method.
fn param_place(method: &Method, slot: u32) -> Option<Span>
    ensures { result ≡ spec.param_place method.now slot }
{
    let param = method.params.get((slot as usize).saturating_sub(1))?;
    Some(param.span)
}

/// The span of the name of the slot with this number. `None` iff it has none.
pub fn slot_place(core: &Core, tokens: &[Token], number: u32, slot: Slot) -> Option<Span>
    requires { Ascends (starts tokens.now) }
    ensures { result ≡ spec.slot_place core.now tokens.now number slot }
{
    core.formed();
    let method = core.method_at(slot.method)?;
    let index = number.saturating_sub(method.first_slot);
    match slot.kind {
        SlotKind::This => None,
        SlotKind::Param => param_place(method, index),
        SlotKind::Let | SlotKind::Var => local_place(core, tokens, method, index),
    }
}
