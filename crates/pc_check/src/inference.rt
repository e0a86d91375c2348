//! The note of a node, by the notes before it.
ghost use Rattle.std.specs.Prelude.{◌≡◌, slice_get};
ghost use Rattle.pc_check.specs.Inference as spec;
ghost use Rattle.pc_check.specs.SourceMasks as sources;

use crate::sources::Source;
use pc_ann::{Ann, Note, Rule};
use pc_core::{Core, Node, NodeKind};
use pc_masks::Mask;
use pc_rules::{Said, constructs, full, says, start_live, start_set};

// The masks with which a method starts.
fn masks_in(core: &Core, method: u32) -> (Mask, Mask)
    ensures { result ≡ sources.masks_in core.now (slice_get core.now.methods method) }
{
    match core.method_at(method) {
        None => (Mask::first(0), Mask::first(0)),
        Some(method) => (start_live(method), start_set(core, method)),
    }
}

// The masks after a node.
fn masks_behind(ann: &Ann, node: u32) -> (Mask, Mask)
    ensures { result ≡ sources.masks_behind (slice_get ann.now.notes node) }
{
    match ann.notes.get(node as usize) {
        None => (Mask::first(0), Mask::first(0)),
        Some(note) => (note.live_after, note.set_after),
    }
}

/// The masks of a source.
pub(crate) fn masks_from(core: &Core, ann: &Ann, source: Source) -> (Mask, Mask)
    ensures { result ≡ sources.masks_from core.now ann.now source }
{
    match source {
        Source::Start(method) => masks_in(core, method),
        Source::Behind(node) => masks_behind(ann, node),
    }
}

/// The rules for nodes of a kind, in the order in which they are tried. Does not allocate.
pub fn rules_for(kind: &NodeKind) -> &'static [Rule]
    ensures { result.now ≡ spec.rules_for kind.now }
{
    match kind {
        NodeKind::Number(_) => &[Rule::Number],
        NodeKind::Truth(_) => &[Rule::Truth],
        NodeKind::Text(_) => &[Rule::Text],
        NodeKind::Prim(_) => &[Rule::Prim],
        NodeKind::This => &[Rule::This],
        NodeKind::Local(_) => &[Rule::Local],
        NodeKind::Consume(_) => &[Rule::Consume],
        NodeKind::Field(_) => &[Rule::Get, Rule::GetOwn],
        NodeKind::SetField(_) => &[Rule::Put, Rule::PutOwn],
        NodeKind::Define(_) => &[Rule::Define],
        NodeKind::Assign(_) => &[Rule::Assign],
        NodeKind::New(_) => &[Rule::New],
        NodeKind::Spawn(_) => &[Rule::Spawn],
        NodeKind::Call(_) => &[Rule::Call, Rule::CallRecover, Rule::Send, Rule::Builtin],
        NodeKind::Binary(_) => &[
            Rule::Arith,
            Rule::Compare,
            Rule::Equal,
            Rule::Join,
            Rule::Logic,
        ],
        NodeKind::Not => &[Rule::Logic],
        NodeKind::And => &[Rule::Lazy],
        NodeKind::Or => &[Rule::Lazy],
        NodeKind::Same(_) => &[Rule::Identity],
        NodeKind::Seq => &[Rule::Seq],
        NodeKind::If => &[Rule::If],
        NodeKind::While => &[Rule::While],
        NodeKind::Recover(_) => &[Rule::Recover],
        NodeKind::Body => &[Rule::Body],
    }
}

// The conclusion of a rule, as a note.
fn note_of(rule: Rule, masks: (Mask, Mask), said: Said) -> Note
    ensures { result ≡ spec.note_of rule masks said }
{
    Note {
        rule,
        ty: said.ty,
        live_before: masks.0,
        set_before: masks.1,
        live_after: said.live,
        set_after: said.set,
    }
}

// The note by the first of these rules that applies to the node.
fn first_note(
    core: &Core,
    ann: &Ann,
    node: &Node,
    masks: (Mask, Mask),
    rules: &[Rule],
) -> Option<Note>
    ensures { result ≡ spec.first_note core.now ann.now node.now masks rules.now }
{
    for rule in rules {
        if let Some(said) = says(core, ann, node, masks, *rule) {
            return Some(note_of(*rule, masks, said));
        }
    }
    None
}

/// The node's note, with these masks before it. `None` iff no rule applies to it.
pub(crate) fn infer_note(core: &Core, ann: &Ann, node: &Node, masks: (Mask, Mask)) -> Option<Note>
    ensures { result ≡ spec.first_note core.now ann.now node.now masks (spec.rules_for node.now.kind) }
{
    first_note(core, ann, node, masks, rules_for(&node.kind))
}

// Whether a method is a constructor that leaves a field unset, if these are set after its body.
fn lacks_field(core: &Core, method: u32, set: Mask) -> bool
    ensures { result ≡ spec.lacks_field core.now (slice_get core.now.methods method) set }
{
    match core.method_at(method) {
        None => false,
        Some(method) => constructs(method.kind) && !full(core, method.entity, set),
    }
}

/// Whether the node is the body of a constructor that, by the node's note, leaves a field unset.
pub(crate) fn leaves_unset(core: &Core, node: &Node, note: Note) -> bool
    ensures { result ≡ spec.leaves_unset core.now node.now note }
{
    matches!(&node.kind, NodeKind::Body) && lacks_field(core, node.method, note.set_after)
}
