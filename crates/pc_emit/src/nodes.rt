//! Single nodes, and their spans.
ghost use Rattle.pc_body_spec.specs.Fold as fold;
ghost use Rattle.std.specs.Prelude.{◌≡◌, ◌++◌, ◌∷◌, [], IfOk};
ghost use Rattle.pc_body_spec.specs.Bodies as spec;
ghost use Rattle.pc_emit.specs.Giving.{GivesNodes};

use crate::setting::Setting;
use crate::stop::EmitStop;
use crate::tops::Tops;
use pc_base::{List, NODE_LIMIT, Span};
use pc_core::{Children, Node, NodeKind};
use pc_tree::Op;
use std::alloc::{AllocError, Global};

/// Appends a node of this method. Its number is its place.
#[tactic(auto, unfolding(pc_body_spec::specs::Fold::push))]
pub(crate) fn push(
    setting: &Setting,
    nodes: &mut List<Node>,
    kind: NodeKind,
    span: Span,
    children: Children,
) -> Result<u32, EmitStop>
    ensures { GivesNodes result nodes.new (fold.push setting.now.number kind span setting.now.depth children nodes.old) }
{
    let place = nodes.len();
    if place >= NODE_LIMIT as usize {
        return Err(EmitStop::Full);
    }
    nodes.push(Node {
        kind,
        children,
        depth: setting.depth,
        method: setting.number,
        span,
    })?;
    Ok(place as u32)
}

/// Appends a node without children.
pub(crate) fn leaf(
    setting: &Setting,
    nodes: &mut List<Node>,
    kind: NodeKind,
    span: Span,
) -> Result<u32, EmitStop>
    ensures { GivesNodes result nodes.new (fold.push setting.now.number kind span setting.now.depth [] nodes.old) }
{
    push(setting, nodes, kind, span, Children::none())
}

/// Appends a node with one child.
pub(crate) fn single(
    setting: &Setting,
    nodes: &mut List<Node>,
    kind: NodeKind,
    span: Span,
    child: u32,
) -> Result<u32, EmitStop>
    ensures { GivesNodes result nodes.new (fold.push setting.now.number kind span setting.now.depth (child ∷ []) nodes.old) }
{
    push(setting, nodes, kind, span, Children::one(child))
}

/// Appends a node with two children.
pub(crate) fn double(
    setting: &Setting,
    nodes: &mut List<Node>,
    kind: NodeKind,
    span: Span,
    first: u32,
    second: u32,
) -> Result<u32, EmitStop>
    ensures { GivesNodes result nodes.new (fold.push setting.now.number kind span setting.now.depth (first ∷ second ∷ []) nodes.old) }
{
    push(setting, nodes, kind, span, Children::two(first, second))
}

/// Appends a node with these children.
pub(crate) fn several(
    setting: &Setting,
    nodes: &mut List<Node>,
    kind: NodeKind,
    span: Span,
    children: Tops,
) -> Result<u32, EmitStop>
    ensures { GivesNodes result nodes.new (fold.push setting.now.number kind span setting.now.depth children nodes.old) }
{
    let children = Children::from_slice(setting.alloc, children.as_slice())?;
    push(setting, nodes, kind, span, children)
}

/// Appends a node with these children and then one more.
pub(crate) fn several_and(
    setting: &Setting,
    nodes: &mut List<Node>,
    kind: NodeKind,
    span: Span,
    children: Tops,
    last: u32,
) -> Result<u32, EmitStop>
    ensures { GivesNodes result nodes.new (fold.push setting.now.number kind span setting.now.depth (children ++ last ∷ []) nodes.old) }
{
    let mut children = children;
    children.push(last)?;
    several(setting, nodes, kind, span, children)
}

/// Appends the node of a missing name.
pub(crate) fn gap(setting: &Setting, nodes: &mut List<Node>, span: Span) -> Result<u32, EmitStop>
    ensures { GivesNodes result nodes.new (fold.put setting.now.number (spec.gap span setting.now.depth) nodes.old) }
{
    let this = leaf(setting, nodes, NodeKind::This, span)?;
    single(setting, nodes, NodeKind::Body, span, this)
}

/// One number.
pub(crate) fn one(alloc: Global, child: u32) -> Result<Tops, AllocError>
    ensures { IfOk result (λ l. l ≡ child ∷ []) }
{
    let mut children = Tops::new(alloc);
    children.push(child)?;
    Ok(children)
}

/// The word `end` of an `if`.
pub(crate) fn end_word(span: Span) -> Span
    ensures { result ≡ spec.end_word span }
{
    Span {
        start: span.end.saturating_sub(3),
        end: span.end,
    }
}

/// The kind of an operation.
pub(crate) fn operation(op: Op) -> NodeKind
    ensures { result ≡ spec.operation op }
{
    match op {
        Op::And => NodeKind::And,
        Op::Or => NodeKind::Or,
        Op::Is => NodeKind::Same(true),
        Op::Isnt => NodeKind::Same(false),
        Op::Add
        | Op::Sub
        | Op::Mul
        | Op::Div
        | Op::Rem
        | Op::Eq
        | Op::Ne
        | Op::Lt
        | Op::Le
        | Op::Gt
        | Op::Ge
        | Op::Xor => NodeKind::Binary(op),
    }
}
