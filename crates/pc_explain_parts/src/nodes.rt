//! The line about a node.
ghost use Rattle.std.specs.Prelude.{◌≡◌, ◌++◌, OnOk, Some, slice_get};
ghost use Rattle.std.specs.Option.{option_copied};
ghost use Rattle.pc_explain_parts.specs.NodeWords as spec;
ghost use Rattle.pc_explain_words.specs.Scene.{slot_in as slot_is};

use crate::members::{callee, field_at, place_of};
use pc_caps::Cap;
use pc_core::{Core, Method, Node, NodeKind};
use pc_explain_window::{piece_of, push_bytes, push_piece, push_quoted};
use pc_explain_words::{
    Scene, cap_word, child, name_text, push_home, push_method, push_place_type, push_taken,
};
use pc_tree::Op;
use std::alloc::{AllocError, Global};

// The sign or the word of an operator.
fn op_word(op: Op) -> &'static [u8]
    ensures { result.now ≡ spec.op_word op }
{
    match op {
        Op::Add => b"+",
        Op::Sub => b"-",
        Op::Mul => b"*",
        Op::Div => b"/",
        Op::Rem => b"%",
        Op::Eq => b"==",
        Op::Ne => b"!=",
        Op::Lt => b"<",
        Op::Le => b"<=",
        Op::Gt => b">",
        Op::Ge => b">=",
        Op::And => b"and",
        Op::Or => b"or",
        Op::Xor => b"xor",
        Op::Is => b"is",
        Op::Isnt => b"isnt",
    }
}

// Appends the type of a place between commas, after these words.
fn push_between_commas(
    alloc: Global,
    out: &mut Vec<u8>,
    core: &Core,
    place: (u32, Cap),
) -> Result<(), AllocError>
    ensures { OnOk result (out.new.items ≡ out.old.items ++ spec.place_part core.now (Some place)) }
{
    push_bytes(out, b", ")?;
    push_place_type(alloc, out, core, place)?;
    push_bytes(out, b",")
}

// Appends `, C iso,`, if there is a type.
fn push_place_part(
    alloc: Global,
    out: &mut Vec<u8>,
    core: &Core,
    place: Option<(u32, Cap)>,
) -> Result<(), AllocError>
    ensures { OnOk result (out.new.items ≡ out.old.items ++ spec.place_part core.now place) }
{
    match place {
        Some(found) => push_between_commas(alloc, out, core, found),
        None => Ok(()),
    }
}

// Appends `, of C iso,`, if there is a type.
fn push_of_part(
    alloc: Global,
    out: &mut Vec<u8>,
    core: &Core,
    place: Option<(u32, Cap)>,
) -> Result<(), AllocError>
    ensures { OnOk result (out.new.items ≡ out.old.items ++ spec.of_part core.now place) }
{
    match place {
        Some(found) => {
            push_bytes(out, b", of ")?;
            push_place_type(alloc, out, core, found)?;
            push_bytes(out, b",")
        }
        None => Ok(()),
    }
}

// Appends the written type, or that it follows from the value.
fn push_written_part(
    alloc: Global,
    out: &mut Vec<u8>,
    core: &Core,
    written: Option<(u32, Cap)>,
) -> Result<(), AllocError>
    ensures { OnOk result (out.new.items ≡ out.old.items ++ spec.written_part core.now written) }
{
    match written {
        Some(found) => push_between_commas(alloc, out, core, found),
        None => push_bytes(out, b", whose type follows from its value,"),
    }
}

// Appends words, a name between backquotes, and its type.
#[tactic(auto, unfolding(crate::specs::NodeWords::typed_words))]
fn push_typed(
    alloc: Global,
    out: &mut Vec<u8>,
    core: &Core,
    words: &[u8],
    name: &[u8],
    ty: Option<(u32, Cap)>,
) -> Result<(), AllocError>
    ensures { OnOk result (out.new.items ≡ out.old.items ++ spec.typed_words core.now words.now name.now ty) }
{
    push_bytes(out, words)?;
    push_quoted(alloc, out, name)?;
    push_place_part(alloc, out, core, ty)
}

fn local_head(param: bool) -> &'static [u8]
    ensures { result.now ≡ spec.local_head param }
{
    if param {
        b"the parameter "
    } else {
        b"the local "
    }
}

// Appends what a local or a parameter is.
#[tactic(auto, unfolding(crate::specs::NodeWords::local_words))]
fn push_local(
    alloc: Global,
    out: &mut Vec<u8>,
    scene: &Scene,
    node: &Node,
    slot: u32,
) -> Result<(), AllocError>
    ensures { OnOk result (out.new.items ≡ out.old.items ++ spec.local_words scene.now node.now slot) }
{
    let words = local_head(scene.is_param(node.method, slot));
    let name = scene.slot_name(node.method, slot);
    let ty = scene.slot_type(node.method, slot);
    push_typed(alloc, out, scene.core(), words, name, ty)
}

// Appends what a `consume` is.
#[tactic(auto, unfolding(crate::specs::NodeWords::consume_words))]
fn push_consume(
    alloc: Global,
    out: &mut Vec<u8>,
    scene: &Scene,
    node: &Node,
    slot: u32,
) -> Result<(), AllocError>
    ensures { OnOk result (out.new.items ≡ out.old.items ++ spec.consume_words scene.now node.now slot) }
{
    push_bytes(out, b"`consume ")?;
    push_piece(alloc, out, scene.slot_name(node.method, slot))?;
    push_bytes(out, b"`")?;
    push_of_part(alloc, out, scene.core(), scene.slot_type(node.method, slot))
}

// Whether the node with this number ends at this offset.
fn ends_at(core: &Core, node: u32, end: u32) -> bool
    ensures { result ≡ spec.ends_at end (slice_get core.now.nodes node) }
{
    match core.node_at(node) {
        Some(found) => found.span.end == end,
        None => false,
    }
}

// Whether there is an origin, and it ends at this offset.
fn origin_ends_at(core: &Core, origin: Option<u32>, end: u32) -> bool
    ensures { result ≡ spec.origin_ends_at core.now end origin }
{
    match origin {
        Some(number) => ends_at(core, number, end),
        None => false,
    }
}

// Whether the write belongs to an initial value: only an assignment continues after its origin.
#[tactic(auto, unfolding(crate::specs::NodeWords::is_initial))]
fn is_initial(scene: &Scene, node: &Node) -> bool
    ensures { result ≡ spec.is_initial scene.now node.now }
{
    origin_ends_at(scene.core(), child(node, 1), node.span.end)
}

fn write_head(initial: bool) -> &'static [u8]
    ensures { result.now ≡ spec.write_head initial }
{
    if initial {
        b"the initial value of the field "
    } else {
        b"the write of the field "
    }
}

// Appends what the write of a field is.
#[tactic(auto, unfolding(crate::specs::NodeWords::write_words))]
fn push_write(
    alloc: Global,
    out: &mut Vec<u8>,
    scene: &Scene,
    node: &Node,
    name: u32,
) -> Result<(), AllocError>
    ensures { OnOk result (out.new.items ≡ out.old.items ++ spec.write_words scene.now node.now name) }
{
    let words = write_head(is_initial(scene, node));
    let place = place_of(field_at(scene, child(node, 1), name));
    push_typed(
        alloc,
        out,
        scene.core(),
        words,
        name_text(scene.core(), name),
        place,
    )
}

// The written type of a slot.
fn written_of(scene: &Scene, method: u32, slot: u32) -> Option<(u32, Cap)>
    ensures { result ≡ spec.written_type_of (slot_is scene.now method slot) }
{
    match scene.slot_in(method, slot) {
        Some(found) => found.written,
        None => None,
    }
}

// Appends what a definition is.
#[tactic(auto, unfolding(crate::specs::NodeWords::define_words))]
fn push_define(
    alloc: Global,
    out: &mut Vec<u8>,
    scene: &Scene,
    node: &Node,
    slot: u32,
) -> Result<(), AllocError>
    ensures { OnOk result (out.new.items ≡ out.old.items ++ spec.define_words scene.now node.now slot) }
{
    push_bytes(out, b"the definition of ")?;
    push_quoted(alloc, out, scene.slot_name(node.method, slot))?;
    push_written_part(
        alloc,
        out,
        scene.core(),
        written_of(scene, node.method, slot),
    )
}

// Appends what an assignment is.
#[tactic(auto, unfolding(crate::specs::NodeWords::assign_words))]
fn push_assign(
    alloc: Global,
    out: &mut Vec<u8>,
    scene: &Scene,
    node: &Node,
    slot: u32,
) -> Result<(), AllocError>
    ensures { OnOk result (out.new.items ≡ out.old.items ++ spec.assign_words scene.now node.now slot) }
{
    let name = scene.slot_name(node.method, slot);
    let ty = scene.slot_type(node.method, slot);
    push_typed(alloc, out, scene.core(), b"the assignment to ", name, ty)
}

// Appends what a call is: of a method, or just of its name.
#[tactic(auto, unfolding(crate::specs::NodeWords::call_words))]
fn push_call(
    alloc: Global,
    out: &mut Vec<u8>,
    scene: &Scene,
    method: Option<&Method>,
    name: &[u8],
) -> Result<(), AllocError>
    ensures { OnOk result (out.new.items ≡ out.old.items ++ spec.call_words scene.now (option_copied method.entry) name.now) }
{
    push_bytes(out, b"a call of ")?;
    match method {
        Some(found) => push_method(alloc, out, scene, found),
        None => push_quoted(alloc, out, name),
    }
}

fn same_words(same: bool) -> &'static [u8]
    ensures { result.now ≡ spec.same_words same }
{
    if same { b"`is`" } else { b"`isnt`" }
}

// Appends what a `recover` is.
#[tactic(auto, unfolding(crate::specs::NodeWords::recover_words))]
fn push_recover(out: &mut Vec<u8>, written: Option<Cap>) -> Result<(), AllocError>
    ensures { OnOk result (out.new.items ≡ out.old.items ++ spec.recover_words written) }
{
    match written {
        None => push_bytes(out, b"the `recover`"),
        Some(cap) => {
            push_bytes(out, b"the `recover ")?;
            push_bytes(out, cap_word(cap))?;
            push_bytes(out, b"`")
        }
    }
}

// Appends what a node is, if its source text says it.
#[tactic(auto, unfolding(crate::specs::NodeWords::text_words))]
fn push_text(alloc: Global, out: &mut Vec<u8>, scene: &Scene, node: &Node) -> Result<(), AllocError>
    ensures { OnOk result (out.new.items ≡ out.old.items ++ spec.text_words scene.now node.now) }
{
    push_quoted(alloc, out, piece_of(scene.bytes(), node.span))
}

// Appends what a node is.
#[tactic(auto, unfolding(crate::specs::NodeWords::words_of_kind))]
fn push_words(
    alloc: Global,
    out: &mut Vec<u8>,
    scene: &Scene,
    node: &Node,
) -> Result<(), AllocError>
    ensures { OnOk result (out.new.items ≡ out.old.items ++ spec.words_of_kind scene.now node.now node.now.kind) }
{
    let core = scene.core();
    match &node.kind {
        NodeKind::Local(slot) => push_local(alloc, out, scene, node, *slot),
        NodeKind::Consume(slot) => push_consume(alloc, out, scene, node, *slot),
        NodeKind::Field(name) => push_typed(
            alloc,
            out,
            core,
            b"the read of the field ",
            name_text(core, *name),
            None,
        ),
        NodeKind::SetField(name) => push_write(alloc, out, scene, node, *name),
        NodeKind::Define(slot) => push_define(alloc, out, scene, node, *slot),
        NodeKind::Assign(slot) => push_assign(alloc, out, scene, node, *slot),
        NodeKind::New(method) | NodeKind::Spawn(method) => {
            push_call(alloc, out, scene, core.method_at(*method), b"")
        }
        NodeKind::Call(name) => {
            let method = callee(scene, node, *name);
            push_call(alloc, out, scene, method, name_text(core, *name))
        }
        NodeKind::Binary(op) => push_quoted(alloc, out, op_word(*op)),
        NodeKind::Not => push_bytes(out, b"`not`"),
        NodeKind::And => push_bytes(out, b"`and`"),
        NodeKind::Or => push_bytes(out, b"`or`"),
        NodeKind::Same(same) => push_bytes(out, same_words(*same)),
        NodeKind::If => push_bytes(out, b"the `if`"),
        NodeKind::While => push_bytes(out, b"the `while`"),
        NodeKind::Recover(written) => push_recover(out, *written),
        NodeKind::Number(_)
        | NodeKind::Truth(_)
        | NodeKind::Text(_)
        | NodeKind::Prim(_)
        | NodeKind::This
        | NodeKind::Seq
        | NodeKind::Body => push_text(alloc, out, scene, node),
    }
}

// Appends what a node is, and in which method.
fn push_plain(
    alloc: Global,
    out: &mut Vec<u8>,
    scene: &Scene,
    node: &Node,
) -> Result<(), AllocError>
    ensures { OnOk result (out.new.items ≡ out.old.items ++ spec.plain_words scene.now node.now) }
{
    push_words(alloc, out, scene, node)?;
    push_home(alloc, out, scene.core(), node.method)
}

// Appends whose body it is.
fn push_body(
    alloc: Global,
    out: &mut Vec<u8>,
    scene: &Scene,
    method: &Method,
) -> Result<(), AllocError>
    ensures { OnOk result (out.new.items ≡ out.old.items ++ spec.body_words scene.now method.now) }
{
    push_bytes(out, b"the body of ")?;
    push_method(alloc, out, scene, method)?;
    push_taken(alloc, out, scene.core(), method)
}

fn is_body(kind: &NodeKind) -> bool
    ensures { result ≡ spec.is_body_node kind.now }
{
    matches!(kind, NodeKind::Body)
}

// Appends what a node is: for a body, its whole method.
#[tactic(auto, unfolding(crate::specs::NodeWords::whole_node_words))]
fn push_whole(
    alloc: Global,
    out: &mut Vec<u8>,
    scene: &Scene,
    node: &Node,
) -> Result<(), AllocError>
    ensures { OnOk result (out.new.items ≡ out.old.items ++ spec.whole_node_words scene.now node.now) }
{
    if !is_body(&node.kind) {
        return push_plain(alloc, out, scene, node);
    }
    match scene.core().method_at(node.method) {
        Some(method) => push_body(alloc, out, scene, method),
        None => push_plain(alloc, out, scene, node),
    }
}

/// Appends the line about a node.
#[tactic(auto, unfolding(crate::specs::NodeWords::node_line))]
pub fn push_node_line(
    alloc: Global,
    out: &mut Vec<u8>,
    scene: &Scene,
    node: &Node,
) -> Result<(), AllocError>
    ensures { OnOk result (out.new.items ≡ out.old.items ++ spec.node_line scene.now node.now) }
{
    push_bytes(out, b"node: ")?;
    push_whole(alloc, out, scene, node)?;
    push_bytes(out, b"\n")
}
