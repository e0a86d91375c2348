//! The kinds of nodes, with what they refer to.
ghost use Rattle.std.specs.Prelude.{◌≡◌, ◌++◌, OnOk, decimal, slice_get};
ghost use Rattle.pc_places.specs.Kinds as spec;

use itoa::Buffer;
use pc_core::{Core, NodeKind};
use std::alloc::AllocError;

/// Appends a number.
pub fn push_number(text: &mut Vec<u8>, number: u32) -> Result<(), AllocError>
    ensures { OnOk result (text.new.items ≡ text.old.items ++ decimal number) }
{
    let mut buffer = Buffer::new();
    text.extend_from_slice(buffer.format(number).as_bytes())
}

/// Appends the name with this number.
pub fn push_name(text: &mut Vec<u8>, core: &Core, name: u32) -> Result<(), AllocError>
    ensures { OnOk result (text.new.items ≡ text.old.items ++ spec.name_or_dash (slice_get core.now.names name)) }
{
    match core.name_at(name) {
        Some(found) => text.extend_from_slice(found.as_slice()),
        None => text.extend_from_slice(b"-"),
    }
}

// Appends a word and the number to which it refers.
fn push_numbered(text: &mut Vec<u8>, word: &[u8], number: u32) -> Result<(), AllocError>
    ensures { OnOk result (text.new.items ≡ text.old.items ++ (word.now ++ decimal number)) }
{
    text.extend_from_slice(word)?;
    push_number(text, number)
}

// Appends a word and the name to which it refers.
fn push_named(text: &mut Vec<u8>, word: &[u8], core: &Core, name: u32) -> Result<(), AllocError>
    ensures { OnOk result (text.new.items ≡ text.old.items ++ (word.now ++ spec.name_or_dash (slice_get core.now.names name))) }
{
    text.extend_from_slice(word)?;
    push_name(text, core, name)
}

/// Appends the kind of a node, with what it refers to.
pub fn push_kind(text: &mut Vec<u8>, core: &Core, kind: &NodeKind) -> Result<(), AllocError>
    ensures { OnOk result (text.new.items ≡ text.old.items ++ spec.kind_text core.now kind.now) }
{
    match kind {
        NodeKind::Number(_) => text.extend_from_slice(b"number"),
        NodeKind::Truth(_) => text.extend_from_slice(b"truth"),
        NodeKind::Text(_) => text.extend_from_slice(b"text"),
        NodeKind::Prim(entity) => push_numbered(text, b"prim:", *entity),
        NodeKind::This => text.extend_from_slice(b"this"),
        NodeKind::Local(slot) => push_numbered(text, b"local:", *slot),
        NodeKind::Consume(slot) => push_numbered(text, b"consume:", *slot),
        NodeKind::Field(name) => push_named(text, b"field:", core, *name),
        NodeKind::SetField(name) => push_named(text, b"setfield:", core, *name),
        NodeKind::Define(slot) => push_numbered(text, b"define:", *slot),
        NodeKind::Assign(slot) => push_numbered(text, b"assign:", *slot),
        NodeKind::New(method) => push_numbered(text, b"new:", *method),
        NodeKind::Spawn(method) => push_numbered(text, b"spawn:", *method),
        NodeKind::Call(name) => push_named(text, b"call:", core, *name),
        NodeKind::Binary(_) => text.extend_from_slice(b"binary"),
        NodeKind::Not => text.extend_from_slice(b"not"),
        NodeKind::And => text.extend_from_slice(b"and"),
        NodeKind::Or => text.extend_from_slice(b"or"),
        NodeKind::Same(_) => text.extend_from_slice(b"same"),
        NodeKind::Seq => text.extend_from_slice(b"seq"),
        NodeKind::If => text.extend_from_slice(b"if"),
        NodeKind::While => text.extend_from_slice(b"while"),
        NodeKind::Recover(_) => text.extend_from_slice(b"recover"),
        NodeKind::Body => text.extend_from_slice(b"body"),
    }
}
