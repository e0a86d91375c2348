//! The rules.
ghost use Rattle.std.specs.Prelude.{◌≡◌, ◌↔◌, ◌<◌, IsTrue, Some, false, length};
ghost use Rattle.pc_valid.specs.Words.{before};
ghost use Rattle.pc_rules.specs.Children.{HaveNotes, all_or_gathered};
ghost use Rattle.pc_valid.specs.Valid.{MeetsRule};
ghost use Rattle.pc_valid.specs.NoRule.{Holds};
ghost use Rattle.pc_rules.specs.Rules as spec;

use crate::calls::{builtin_says, call_says, callrecover_says, new_says, send_says, spawn_says};
use crate::children::{Children, have_notes};
use crate::control::{body_says, if_says, recover_says, seq_says, while_says};
use crate::fields::{get_says, getown_says, put_says, putown_says};
use crate::operators::{
    arith_says, compare_says, equal_says, identity_says, join_says, lazy_says, not_says, xor_says,
};
use crate::parts::note_at;
use crate::said::Said;
use crate::values::{assign_says, consume_says, define_says, literal_says, local_says, this_says};
use pc_ann::{Ann, Note, Rule};
use pc_caps::Cap;
use pc_core::{Core, Node, NodeKind};
use pc_masks::Mask;
use pc_tree::{BOOL_ENTITY, STRING_ENTITY, U64_ENTITY};

// The conclusion of the rule for this node, by the types of the slots and the notes of its children.
fn rule_says(
    core: &Core,
    slots: &[(u32, Cap)],
    children: &Children,
    node: &Node,
    masks: (Mask, Mask),
    rule: Rule,
) -> Option<Said>
    ensures { result ≡ spec.rule_says core.now slots.now children.now node.now masks rule node.now.kind }
{
    match (rule, &node.kind) {
        (Rule::Number, NodeKind::Number(_)) => literal_says(U64_ENTITY, masks),
        (Rule::Truth, NodeKind::Truth(_)) => literal_says(BOOL_ENTITY, masks),
        (Rule::Text, NodeKind::Text(_)) => literal_says(STRING_ENTITY, masks),
        (Rule::Prim, NodeKind::Prim(entity)) => literal_says(*entity, masks),
        (Rule::This, NodeKind::This) => this_says(core, slots, node, masks),
        (Rule::Local, NodeKind::Local(slot)) => local_says(core, slots, node, *slot, masks),
        (Rule::Consume, NodeKind::Consume(slot)) => consume_says(core, slots, node, *slot, masks),
        (Rule::Get, NodeKind::Field(name)) => get_says(core, children, node, *name, masks),
        (Rule::GetOwn, NodeKind::Field(name)) => getown_says(core, children, node, *name, masks),
        (Rule::Put, NodeKind::SetField(name)) => put_says(core, children, node, *name, masks),
        (Rule::PutOwn, NodeKind::SetField(name)) => {
            putown_says(core, children, node, *name, masks)
        }
        (Rule::Define, NodeKind::Define(slot)) => {
            define_says(core, slots, children, node, *slot, masks)
        }
        (Rule::Assign, NodeKind::Assign(slot)) => {
            assign_says(core, slots, children, node, *slot, masks)
        }
        (Rule::New, NodeKind::New(method)) => new_says(core, children, *method, masks),
        (Rule::Spawn, NodeKind::Spawn(method)) => spawn_says(core, children, *method, masks),
        (Rule::Call, NodeKind::Call(name)) => call_says(core, children, *name, masks),
        (Rule::CallRecover, NodeKind::Call(name)) => {
            callrecover_says(core, children, *name, masks)
        }
        (Rule::Send, NodeKind::Call(name)) => send_says(core, children, *name, masks),
        (Rule::Builtin, NodeKind::Call(name)) => builtin_says(core, children, *name, masks),
        (Rule::Arith, NodeKind::Binary(op)) => arith_says(children, *op, masks),
        (Rule::Compare, NodeKind::Binary(op)) => compare_says(children, *op, masks),
        (Rule::Equal, NodeKind::Binary(op)) => equal_says(children, *op, masks),
        (Rule::Join, NodeKind::Binary(op)) => join_says(children, *op, masks),
        (Rule::Logic, NodeKind::Binary(op)) => xor_says(children, *op, masks),
        (Rule::Logic, NodeKind::Not) => not_says(children, masks),
        (Rule::Lazy, NodeKind::And | NodeKind::Or) => lazy_says(children, masks),
        (Rule::Identity, NodeKind::Same(_)) => identity_says(children, masks),
        (Rule::Seq, NodeKind::Seq) => seq_says(core, children, node, masks),
        (Rule::If, NodeKind::If) => if_says(core, children, masks),
        (Rule::While, NodeKind::While) => while_says(children, masks),
        (Rule::Recover, NodeKind::Recover(cap)) => recover_says(children, *cap, masks),
        (Rule::Body, NodeKind::Body) => body_says(core, children, node, masks),
        (_, _) => None,
    }
}

// The same for a node of an annotation whose children have notes.
fn says_among(core: &Core, ann: &Ann, node: &Node, masks: (Mask, Mask), rule: Rule) -> Option<Said>
    requires { HaveNotes ann.now.notes node.now.children }
    ensures { result ≡ spec.rule_says core.now ann.now.slots (all_or_gathered false ann.now.notes node.now.children) node.now masks rule node.now.kind }
{
    let children = Children::among(ann.notes.as_slice(), node.children.as_slice());
    rule_says(core, ann.slots.as_slice(), &children, node, masks, rule)
}

/// The conclusion of the rule for this node, with these masks before it: its type, or none, and the masks after it.
/// `None` iff it is not a rule for nodes of this kind, its condition does not hold, or a child has no note. Does not
/// allocate.
pub fn says(core: &Core, ann: &Ann, node: &Node, masks: (Mask, Mask), rule: Rule) -> Option<Said>
    ensures { result ≡ spec.says core.now ann.now node.now masks rule node.now.kind }
{
    if have_notes(ann.notes.as_slice(), node.children.as_slice()) {
        says_among(core, ann, node, masks, rule)
    } else {
        None
    }
}

// Whether the note is this conclusion.
fn agrees(said: Option<Said>, note: Note) -> bool
    ensures { IsTrue result ↔ (said ≡ Some (spec.said_by note)) }
{
    match said {
        None => false,
        Some(said) => {
            said.ty == note.ty && said.live == note.live_after && said.set == note.set_after
        }
    }
}

// Whether the note of this node is the conclusion of its rule.
fn meets(core: &Core, ann: &Ann, node: &Node, note: Note) -> bool
    ensures { IsTrue result ↔ spec.IsSaid core.now ann.now node.now note }
{
    agrees(
        says(
            core,
            ann,
            node,
            (note.live_before, note.set_before),
            note.rule,
        ),
        note,
    )
}

/// Whether node `n` satisfies its rule, by its own note and those of its children: its type and its masks are the
/// conclusion of the rule of its note. Does not allocate.
pub fn rule_holds(core: &Core, ann: &Ann, number: u32) -> bool
    requires slots { length ann.now.slots ≡ length core.now.slots }
    requires notes { length ann.now.notes ≡ length core.now.nodes }
    requires node { number < length core.now.nodes }
    ensures { IsTrue result ↔ MeetsRule core.now ann.now number }
{
    core.formed();
    match (core.node_at(number), note_at(ann, number)) {
        (Some(node), Some(note)) => meets(core, ann, node, note),
        (_, _) => false,
    }
}

// Whether this note of the node is the conclusion of its rule, by the notes of its children.
fn meets_by(core: &Core, slots: &[(u32, Cap)], own: Note, children: &Children, node: &Node) -> bool
    ensures { IsTrue result ↔ (spec.rule_says core.now slots.now children.now node.now (before own) own.rule node.now.kind ≡ Some (spec.said_by own)) }
{
    agrees(
        rule_says(
            core,
            slots,
            children,
            node,
            (own.live_before, own.set_before),
            own.rule,
        ),
        own,
    )
}

/// Whether node `n` satisfies the rule of this note, by the types of the slots and the notes of its children, in order.
/// Does not allocate.
pub fn holds(core: &Core, slots: &[(u32, Cap)], own: &Note, children: &[Note], number: u32) -> bool
    requires slots { length slots.now ≡ length core.now.slots }
    requires node { number < length core.now.nodes }
    ensures { IsTrue result ↔ Holds core.now slots.now own.now children.now number }
{
    core.formed();
    match core.node_at(number) {
        None => false,
        Some(node) => meets_by(core, slots, *own, &Children::held(children), node),
    }
}
