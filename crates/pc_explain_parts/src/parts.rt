//! The lines about the parts of a node: the children whose types its rules look at.
ghost use Rattle.std.specs.Prelude.{◌≡◌, ◌++◌, OnOk, slice_get};
ghost use Rattle.pc_explain_parts.specs.Parts as spec;
ghost use Rattle.pc_rules.specs.Parts.{last_child as last_child_is};

use pc_caps::Form;
use pc_core::{Core, Node, NodeKind};
use pc_explain_window::{piece_of, push_bytes, push_quoted};
use pc_explain_words::{Scene, push_type};
use std::alloc::{AllocError, Global};

/// The role of a child in its node.
#[derive(Clone, Copy, Debug, PartialEq, Eq)]
pub enum Role {
    Value,
    Origin,
    /// The argument with this index.
    Argument(usize),
    Receiver,
    Left,
    Right,
    Operand,
    Condition,
    Body,
    /// The last value of a body.
    Last,
    /// A child whose type no rule looks at.
    Unseen,
}

fn value_or_origin(index: usize) -> Role
    ensures { result ≡ spec.value_or_origin index }
{
    if index == 0 {
        Role::Value
    } else {
        Role::Origin
    }
}

fn left_or_right(index: usize) -> Role
    ensures { result ≡ spec.left_or_right index }
{
    if index == 0 { Role::Left } else { Role::Right }
}

fn condition_or_none(index: usize) -> Role
    ensures { result ≡ spec.condition_or_none index }
{
    if index == 0 {
        Role::Condition
    } else {
        Role::Unseen
    }
}

fn argument_or_receiver(count: usize, index: usize) -> Role
    ensures { result ≡ spec.argument_or_receiver count index }
{
    if index < count && index + 1 == count {
        Role::Receiver
    } else {
        Role::Argument(index)
    }
}

// The role of the child with this index, given the number of children.
fn role_of(kind: &NodeKind, count: usize, index: usize) -> Role
    ensures { result ≡ spec.role_of kind.now count index }
{
    match kind {
        NodeKind::Field(_) => Role::Origin,
        NodeKind::SetField(_) => value_or_origin(index),
        NodeKind::Define(_) | NodeKind::Assign(_) => Role::Value,
        NodeKind::New(_) | NodeKind::Spawn(_) => Role::Argument(index),
        NodeKind::Call(_) => argument_or_receiver(count, index),
        NodeKind::Binary(_) | NodeKind::And | NodeKind::Or | NodeKind::Same(_) => {
            left_or_right(index)
        }
        NodeKind::Not => Role::Operand,
        NodeKind::If | NodeKind::While => condition_or_none(index),
        NodeKind::Recover(_) => Role::Body,
        NodeKind::Body => Role::Last,
        NodeKind::Number(_)
        | NodeKind::Truth(_)
        | NodeKind::Text(_)
        | NodeKind::Prim(_)
        | NodeKind::This
        | NodeKind::Local(_)
        | NodeKind::Consume(_)
        | NodeKind::Seq => Role::Unseen,
    }
}

/// The role of the child with this index.
#[tactic(auto, unfolding(crate::specs::Parts::child_role))]
pub fn child_role(node: &Node, index: usize) -> Role
    ensures { result ≡ spec.child_role node.now index }
{
    role_of(&node.kind, node.children.len(), index)
}

// Appends which argument it is, counted from 1.
fn push_argument(alloc: Global, out: &mut Vec<u8>, index: usize) -> Result<(), AllocError>
    ensures { OnOk result (out.new.items ≡ out.old.items ++ spec.argument_words index) }
{
    let number = index as u128 + 1;
    let text = format!(in alloc; "argument {number}")?;
    push_bytes(out, text.as_bytes())
}

/// Appends the words for a role.
#[tactic(auto, unfolding(crate::specs::Parts::role_words))]
pub fn push_role(alloc: Global, out: &mut Vec<u8>, role: Role) -> Result<(), AllocError>
    ensures { OnOk result (out.new.items ≡ out.old.items ++ spec.role_words role) }
{
    match role {
        Role::Value => push_bytes(out, b"the value"),
        Role::Origin => push_bytes(out, b"the origin"),
        Role::Argument(index) => push_argument(alloc, out, index),
        Role::Receiver => push_bytes(out, b"the receiver"),
        Role::Left => push_bytes(out, b"the left side"),
        Role::Right => push_bytes(out, b"the right side"),
        Role::Operand => push_bytes(out, b"the operand"),
        Role::Condition => push_bytes(out, b"the condition"),
        Role::Body => push_bytes(out, b"the body"),
        Role::Last => push_bytes(out, b"the last value"),
        Role::Unseen => Ok(()),
    }
}

fn is_seq(kind: &NodeKind) -> bool
    ensures { result ≡ spec.is_seq kind.now }
{
    matches!(kind, NodeKind::Seq)
}

fn last_child(children: &[u32]) -> Option<u32>
    ensures { result ≡ last_child_is children.now }
{
    children.get(children.len().saturating_sub(1)).copied()
}

// The last item of a sequence, if the node with this number is one.
fn last_of_seq(core: &Core, node: u32) -> Option<u32>
    ensures { result ≡ spec.last_of_seq (slice_get core.now.nodes node) }
{
    match core.node_at(node) {
        Some(found) => {
            if is_seq(&found.kind) {
                last_child(found.children.as_slice())
            } else {
                None
            }
        }
        None => None,
    }
}

/// The last item of a sequence, through nested sequences.
#[tactic(auto, using(crate::proofs::LastItem::goes_on, crate::proofs::LastItem::stops, crate::proofs::LastItem::none_left), unfolding(crate::specs::Parts::last_value))]
pub fn last_value(core: &Core, node: u32) -> u32
    ensures { result ≡ spec.last_value core.now node }
{
    let mut at = node;
    for _step in 0..core.nodes().len() {
        match last_of_seq(core, at) {
            Some(last) => at = last,
            None => return at,
        }
    }
    at
}

/// The node that a part shows: for a body its last item, through nested sequences.
#[tactic(auto, unfolding(crate::specs::Parts::shown_node))]
pub fn shown_node(core: &Core, role: Role, node: u32) -> u32
    ensures { result ≡ spec.shown_node core.now role node }
{
    match role {
        Role::Last => last_value(core, node),
        Role::Value
        | Role::Origin
        | Role::Argument(_)
        | Role::Receiver
        | Role::Left
        | Role::Right
        | Role::Operand
        | Role::Condition
        | Role::Body
        | Role::Unseen => node,
    }
}

// Appends the type of a value, or that it has none.
fn push_has_type(
    alloc: Global,
    out: &mut Vec<u8>,
    core: &Core,
    ty: Option<(u32, Form)>,
) -> Result<(), AllocError>
    ensures { OnOk result (out.new.items ≡ out.old.items ++ spec.has_type core.now ty) }
{
    match ty {
        None => push_bytes(out, b" has no type"),
        Some(found) => {
            push_bytes(out, b" is ")?;
            push_type(alloc, out, core, found)
        }
    }
}

// Appends the source's text of a node.
fn push_node_text(
    alloc: Global,
    out: &mut Vec<u8>,
    scene: &Scene,
    node: u32,
) -> Result<(), AllocError>
    ensures { OnOk result (out.new.items ≡ out.old.items ++ spec.node_text scene.now (slice_get scene.now.core.nodes node)) }
{
    match scene.core().node_at(node) {
        Some(found) => push_quoted(alloc, out, piece_of(scene.bytes(), found.span)),
        None => Ok(()),
    }
}

// Appends a part's text.
fn push_seen(alloc: Global, out: &mut Vec<u8>, scene: &Scene, node: u32) -> Result<(), AllocError>
    ensures { OnOk result (out.new.items ≡ out.old.items ++ spec.seen_text scene.now node) }
{
    if scene.is_unwritten_this(node) {
        push_bytes(out, b"`this`, which is not written,")
    } else {
        push_node_text(alloc, out, scene, node)
    }
}

// Appends the line about a part.
#[tactic(auto, unfolding(crate::specs::Parts::part_line))]
fn push_part_line(
    alloc: Global,
    out: &mut Vec<u8>,
    scene: &Scene,
    role: Role,
    child: u32,
) -> Result<(), AllocError>
    ensures { OnOk result (out.new.items ≡ out.old.items ++ spec.part_line scene.now role child) }
{
    let core = scene.core();
    push_bytes(out, b"part: ")?;
    push_role(alloc, out, role)?;
    push_bytes(out, b" ")?;
    push_seen(alloc, out, scene, shown_node(core, role, child))?;
    push_has_type(alloc, out, core, scene.type_of(child))?;
    push_bytes(out, b"\n")
}

// Whether a child is not a part of its node.
fn left_out(incomplete: bool, role: Role) -> bool
    ensures { result ≡ spec.left_out incomplete role }
{
    match role {
        Role::Unseen => true,
        Role::Origin => incomplete,
        Role::Value
        | Role::Argument(_)
        | Role::Receiver
        | Role::Left
        | Role::Right
        | Role::Operand
        | Role::Condition
        | Role::Body
        | Role::Last => false,
    }
}

// Appends the line about a child, if it is a part.
fn push_one_part(
    alloc: Global,
    out: &mut Vec<u8>,
    scene: &Scene,
    incomplete: bool,
    role: Role,
    child: u32,
) -> Result<(), AllocError>
    ensures { OnOk result (out.new.items ≡ out.old.items ++ spec.one_part scene.now incomplete role child) }
{
    if left_out(incomplete, role) {
        Ok(())
    } else {
        push_part_line(alloc, out, scene, role, child)
    }
}

/// Appends the lines about the parts of a node. The origin is not a part if the node belongs to a constructor that has
/// not set all fields.
#[tactic(auto, unfolding(crate::specs::Parts::part_lines))]
pub fn push_part_lines(
    alloc: Global,
    out: &mut Vec<u8>,
    scene: &Scene,
    node: &Node,
    incomplete: bool,
) -> Result<(), AllocError>
    ensures { OnOk result (out.new.items ≡ out.old.items ++ spec.part_lines scene.now node.now incomplete) }
{
    let mut index = 0;
    for child in node.children.as_slice() {
        push_one_part(
            alloc,
            out,
            scene,
            incomplete,
            child_role(node, index),
            *child,
        )?;
        index += 1;
    }
    Ok(())
}
