//! Pending nodes, which still need the number of a part.
ghost use Rattle.pc_body_spec.specs.Fold as fold;
ghost use Rattle.std.specs.Prelude.{◌≡◌, ◌∷◌, []};
ghost use Rattle.pc_body_spec.specs.Bodies as roses;
ghost use Rattle.pc_emit.specs.Giving.{GivesNodes};
ghost use Rattle.pc_emit.specs.Closing.{TakesLast, closing, arm_closes, link_closes, none_closes, seq_closes, this_closes, written_kind};

use crate::nodes::{double, leaf, one, several, several_and, single};
use crate::setting::Setting;
use crate::stop::EmitStop;
use crate::tops::Tops;
use pc_base::{List, Span};
use pc_core::{Node, NodeKind};
use pc_tree::NONE_ENTITY;

/// The arm of an `if` whose condition and body have been emitted. Its `else` is still missing.
#[derive(Drop)]
pub(crate) struct OpenArm {
    pub(crate) cond: u32,
    pub(crate) body: u32,
    /// Whether it is the first arm: every other arm is in a sequence of its own.
    pub(crate) first: bool,
    pub(crate) span: Span,
}

/// A suffix whose arguments have been emitted. What comes before it is still missing.
#[derive(Drop)]
pub(crate) struct Link {
    pub(crate) kind: NodeKind,
    pub(crate) span: Span,
    pub(crate) args: Tops,
}

/// A chain whose suffixes have their arguments. The beginning of the chain is still missing.
#[derive(Drop)]
pub(crate) struct OpenChain {
    pub(crate) links: List<Link>,
    /// The number of the chain's beginning, if that has arguments. Otherwise the chain begins with its atom.
    pub(crate) origin: Option<u32>,
}

// Takes the last of those that wait out of their list.
#[tactic(auto, using(crate::proofs::Walks::takes_last))]
fn take_last<P>(waiting: &mut List<P>) -> Option<P>
    ensures { TakesLast waiting.old waiting.new result }
{
    waiting.pop()
}

/// Emits the nodes of the arms around the last `else`, starting with the last arm.
#[tactic(auto, using(crate::proofs::Walks::closing_last))]
pub(crate) fn close_arms(
    setting: &Setting,
    nodes: &mut List<Node>,
    arms: List<OpenArm>,
    last: u32,
) -> Result<u32, EmitStop>
    ensures { GivesNodes result nodes.new (closing (arm_closes setting.now.number setting.now.depth) arms last nodes.old) }
{
    let mut arms = arms;
    let mut top = last;
    'close: while let Some(arm) = take_last(&mut arms) {
        top = close_arm(setting, nodes, arm, top)?;
    }
    Ok(top)
}

// Emits the node of an arm around its `else`.
#[tactic(auto, unfolding(crate::specs::Closing::arm_closes))]
fn close_arm(
    setting: &Setting,
    nodes: &mut List<Node>,
    arm: OpenArm,
    other: u32,
) -> Result<u32, EmitStop>
    ensures { GivesNodes result nodes.new (arm_closes setting.now.number setting.now.depth arm other nodes.old) }
{
    let mut children = one(setting.alloc, arm.cond)?;
    children.push(arm.body)?;
    let chosen = several_and(setting, nodes, NodeKind::If, arm.span, children, other)?;
    if arm.first {
        return Ok(chosen);
    }
    single(setting, nodes, NodeKind::Seq, arm.span, chosen)
}

/// Emits the nodes of the suffixes after the beginning of the chain, starting with the first suffix.
#[tactic(auto, using(crate::proofs::Walks::closing_last), unfolding(crate::specs::Closing::link_closes))]
pub(crate) fn close_links(
    setting: &Setting,
    nodes: &mut List<Node>,
    links: List<Link>,
    origin: u32,
) -> Result<u32, EmitStop>
    ensures { GivesNodes result nodes.new (closing (link_closes setting.now.number setting.now.depth) links origin nodes.old) }
{
    let mut links = links;
    let mut top = origin;
    'close: while let Some(link) = take_last(&mut links) {
        top = several_and(setting, nodes, link.kind, link.span, link.args, top)?;
    }
    Ok(top)
}

/// Emits the node of a write at the end of a chain, after the nodes of the chain.
pub(crate) fn close_write(
    setting: &Setting,
    nodes: &mut List<Node>,
    span: Span,
    field: Option<u32>,
    links: List<Link>,
    origin: u32,
    value: u32,
) -> Result<u32, EmitStop>
    ensures { GivesNodes result nodes.new (fold.and_then (closing (link_closes setting.now.number setting.now.depth) links origin nodes.old) (λ top. fold.push setting.now.number (written_kind field) span setting.now.depth (value ∷ top ∷ []))) }
{
    let top = close_links(setting, nodes, links, origin)?;
    let kind = written(field);
    double(setting, nodes, kind, span, value, top)
}

// The kind of a write to this field, or to something that is no field.
fn written(field: Option<u32>) -> NodeKind
    ensures { result ≡ written_kind field }
{
    match field {
        Some(text) => NodeKind::SetField(text),
        None => NodeKind::Seq,
    }
}

/// Emits a call on `this`, which has this span, after the nodes of the arguments.
#[tactic(auto, unfolding(crate::specs::Closing::this_closes))]
pub(crate) fn call_this(
    setting: &Setting,
    nodes: &mut List<Node>,
    span: Span,
    text: u32,
    place: Span,
    args: Tops,
) -> Result<u32, EmitStop>
    ensures { GivesNodes result nodes.new (this_closes setting.now.number setting.now.depth span text place args nodes.old) }
{
    let this = leaf(setting, nodes, NodeKind::This, place)?;
    several_and(setting, nodes, NodeKind::Call(text), span, args, this)
}

// The items of a sequence, or the value None if it has none.
#[tactic(auto, unfolding(crate::specs::Closing::none_closes))]
fn or_none(
    setting: &Setting,
    nodes: &mut List<Node>,
    span: Span,
    items: Tops,
) -> Result<Tops, EmitStop>
    ensures { GivesNodes result nodes.new (none_closes setting.now.number setting.now.depth span items nodes.old) }
{
    if !items.is_empty() {
        return Ok(items);
    }
    let none = leaf(setting, nodes, NodeKind::Prim(NONE_ENTITY), span)?;
    Ok(one(setting.alloc, none)?)
}

/// Emits the node of a sequence whose items have been emitted.
#[tactic(auto, unfolding(crate::specs::Closing::seq_closes))]
pub(crate) fn close_sequence(
    setting: &Setting,
    nodes: &mut List<Node>,
    span: Span,
    items: Tops,
) -> Result<u32, EmitStop>
    ensures { GivesNodes result nodes.new (seq_closes setting.now.number setting.now.depth span items nodes.old) }
{
    let children = or_none(setting, nodes, span, items)?;
    several(setting, nodes, NodeKind::Seq, span, children)
}
