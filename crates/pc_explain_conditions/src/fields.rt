//! Fields, and nodes of constructors that have not set all of them.
ghost use Rattle.std.specs.Prelude.{◌≡◌, false};
ghost use Rattle.pc_rules.specs.Fields as spec;
ghost use Rattle.pc_rules.specs.Parts.{last_child as last_child_is, last_note as last_note_is};
ghost use Rattle.pc_explain_conditions.specs.Conditions.{child_field as child_field_is};

use crate::children::type_at;
use pc_ann::Note;
use pc_core::{Core, FieldInfo, Node, NodeKind};
use pc_masks::Mask;
use pc_rules::{constructs, full};

// A field of an entity by its name, with its index.
fn field_of(core: &Core, entity: u32, name: u32) -> Option<(u32, FieldInfo)>
    ensures { result ≡ spec.field_of core.now entity name }
{
    let at = core.field(entity, name)?;
    let found = core.entity_at(entity)?;
    let field = found.fields.get(at as usize)?;
    Some((at, *field))
}

/// A field of the own entity.
pub(crate) fn own_field(core: &Core, node: &Node, name: u32) -> Option<(u32, FieldInfo)>
    ensures { result ≡ spec.own_field core.now node.now name }
{
    let method = core.method_at(node.method)?;
    field_of(core, method.entity, name)
}

/// The field with this name of the child's entity.
pub(crate) fn child_field(
    core: &Core,
    children: &[Note],
    child: usize,
    name: u32,
) -> Option<(u32, FieldInfo)>
    ensures { result ≡ child_field_is core.now children.now child name }
{
    let origin = type_at(children, child)?;
    field_of(core, origin.0, name)
}

fn is_this(kind: &NodeKind) -> bool
    ensures { result ≡ spec.is_this kind.now }
{
    matches!(kind, NodeKind::This)
}

fn last_child(numbers: &[u32]) -> Option<u32>
    ensures { result ≡ last_child_is numbers.now }
{
    numbers.get(numbers.len().saturating_sub(1)).copied()
}

fn last_note(children: &[Note]) -> Option<Note>
    ensures { result ≡ last_note_is children.now }
{
    children.get(children.len().saturating_sub(1)).copied()
}

// The set mask of a node's last child, if that is `this`.
fn own_set(core: &Core, numbers: &[u32], children: &[Note]) -> Option<Mask>
    ensures { result ≡ spec.own_set core.now numbers.now children.now }
{
    let last = last_child(numbers)?;
    let origin = core.node_at(last)?;
    let note = last_note(children)?;
    if is_this(&origin.kind) {
        Some(note.set_before)
    } else {
        None
    }
}

fn lacks_fields(core: &Core, entity: u32, set: Option<Mask>) -> bool
    ensures { result ≡ spec.lacks_fields core.now entity set }
{
    match set {
        None => false,
        Some(set) => !full(core, entity, set),
    }
}

/// Whether the node is in a constructor that has not set all fields yet.
pub(crate) fn incomplete(core: &Core, children: &[Note], node: &Node) -> bool
    ensures { result ≡ spec.incomplete core.now children.now node.now }
{
    match core.method_at(node.method) {
        None => false,
        Some(method) => constructs(method.kind)
            && node.depth == 0
            && lacks_fields(
                core,
                method.entity,
                own_set(core, node.children.as_slice(), children),
            ),
    }
}
