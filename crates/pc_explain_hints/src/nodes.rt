//! What a hint looks at.
ghost use Rattle.std.specs.Prelude.{◌≡◌, slice_get};
ghost use Rattle.std.specs.Option.{option_copied};
ghost use Rattle.pc_explain_hints.specs.Nodes as spec;
ghost use Rattle.pc_rules.specs.Calls.{is_function as is_function_is};

use pc_caps::{Cap, Form, taken};
use pc_core::{Core, FieldInfo, Method, MethodKind, Node, NodeKind};
use pc_explain_parts::{callee, field_at, last_value};
use pc_explain_sentences::Stop;
use pc_explain_words::{child, is_this};
use pc_tree::EntityKind;

fn is_box_cap(cap: Cap) -> bool
    ensures { result ≡ spec.is_box_cap cap }
{
    matches!(cap, Cap::Box)
}

fn is_isolated_cap(cap: Cap) -> bool
    ensures { result ≡ spec.is_isolated_cap cap }
{
    matches!(cap, Cap::Iso | Cap::Trn)
}

fn is_box_form(form: Form) -> bool
    ensures { result ≡ spec.is_box_form form }
{
    matches!(form, Form::Box)
}

fn is_tag_form(form: Form) -> bool
    ensures { result ≡ spec.is_tag_form form }
{
    matches!(form, Form::Tag)
}

// Whether the method with this number is a box function.
fn gives_box(core: &Core, method: u32) -> bool
    ensures { result ≡ spec.gives_box (slice_get core.now.methods method) }
{
    match core.method_at(method) {
        Some(found) => is_function(found.kind) && is_box_cap(found.receiver),
        None => false,
    }
}

fn is_function(kind: MethodKind) -> bool
    ensures { result ≡ is_function_is kind }
{
    matches!(kind, MethodKind::Fun)
}

/// Whether the node is a box `this` in a box function.
pub(crate) fn is_box_this(stop: &Stop, node: &Node, form: Form) -> bool
    ensures { result ≡ spec.is_box_this stop.now node.now form }
{
    is_this(&node.kind) && (is_box_form(form) && gives_box(stop.core(), stop.node().method))
}

// Whether the node is `this`.
fn shows_this(node: Option<&Node>) -> bool
    ensures { result ≡ spec.shows_this (option_copied node.entry) }
{
    match node {
        Some(found) => is_this(&found.kind),
        None => false,
    }
}

/// Whether the child is `this`, which is seen as tag.
pub(crate) fn is_tag_this(stop: &Stop, index: usize) -> bool
    ensures { result ≡ spec.is_tag_this stop.now index }
{
    shows_this(stop.child_node(index)) && is_tag_form(stop.child_form(index))
}

// Whether the entity with this number is an actor.
fn is_of_actor(core: &Core, entity: u32) -> bool
    ensures { result ≡ spec.is_of_actor (slice_get core.now.entities entity) }
{
    match core.entity_at(entity) {
        Some(found) => matches!(found.kind, EntityKind::Actor),
        None => false,
    }
}

/// Whether the type is that of an actor, seen as tag.
pub(crate) fn is_tag_actor(core: &Core, ty: Option<(u32, Form)>) -> bool
    ensures { result ≡ spec.is_tag_actor core.now ty }
{
    match ty {
        Some(found) => is_tag_form(found.1) && is_of_actor(core, found.0),
        None => false,
    }
}

fn isolated_cap(ty: Option<(u32, Cap)>) -> Option<Cap>
    ensures { result ≡ spec.isolated_cap ty }
{
    match ty {
        Some(found) => {
            if is_isolated_cap(found.1) {
                Some(found.1)
            } else {
                None
            }
        }
        None => None,
    }
}

/// The capability of the node, if it is a local of iso or trn.
#[tactic(auto, unfolding(crate::specs::Nodes::local_cap))]
pub(crate) fn local_cap(stop: &Stop, node: &Node) -> Option<Cap>
    ensures { result ≡ spec.local_cap stop.now node.now }
{
    let slot = node.kind.local_slot()?;
    isolated_cap(stop.scene().slot_type(node.method, slot))
}

fn old_of(form: Form, field: FieldInfo) -> Option<Form>
    ensures { result ≡ spec.old_of form field }
{
    if field.fixed {
        None
    } else {
        taken(form, field.cap)
    }
}

// The form of the old value of a `var` field of this origin.
fn old_in(stop: &Stop, origin: u32, name: u32) -> Option<Form>
    ensures { result ≡ spec.old_in stop.now origin name }
{
    let ty = stop.scene().type_of(origin)?;
    let field = field_at(stop.scene(), Some(origin), name)?;
    old_of(ty.1, field)
}

fn old_from(stop: &Stop, origin: Option<u32>, name: u32) -> Option<Form>
    ensures { result ≡ spec.old_from stop.now origin name }
{
    match origin {
        Some(number) => old_in(stop, number, name),
        None => None,
    }
}

/// The form of the old value of a `var` field that the node reads.
#[tactic(auto, unfolding(crate::specs::Nodes::old_form))]
pub(crate) fn old_form(stop: &Stop, node: &Node) -> Option<Form>
    ensures { result ≡ spec.old_form stop.now node.now }
{
    let name = node.kind.field_read()?;
    old_from(stop, child(node, 0), name)
}

fn hat_form(form: Form) -> Option<Form>
    ensures { result ≡ spec.hat_form form }
{
    match form {
        Form::Iso => Some(Form::IsoE),
        Form::Trn => Some(Form::TrnE),
        Form::IsoE | Form::TrnE | Form::Ref | Form::Val | Form::Box | Form::Tag => None,
    }
}

// The form of a function's result with `^`, if its result is an alias.
fn hat_result(method: Option<&Method>) -> Option<Form>
    ensures { result ≡ spec.hat_result (option_copied method.entry) }
{
    match method {
        Some(found) => {
            if is_function(found.kind) {
                hat_form(found.result.1)
            } else {
                None
            }
        }
        None => None,
    }
}

fn named_form(name: u32, form: Option<Form>) -> Option<(u32, Form)>
    ensures { result ≡ spec.named_form name form }
{
    match form {
        Some(found) => Some((name, found)),
        None => None,
    }
}

/// The name of the function that the node calls, and the form of its result with `^`, if its result is an alias.
#[tactic(auto, unfolding(crate::specs::Nodes::called_hat))]
pub(crate) fn called_hat(stop: &Stop, node: &Node) -> Option<(u32, Form)>
    ensures { result ≡ spec.called_hat stop.now node.now }
{
    let name = node.kind.called_name()?;
    named_form(name, hat_result(callee(stop.scene(), node, name)))
}

/// Whether a node of this kind makes an object of a class.
pub(crate) fn is_new(kind: &NodeKind) -> bool
    ensures { result ≡ spec.is_new_node kind.now }
{
    matches!(kind, NodeKind::New(_))
}

fn assigns(kind: &NodeKind) -> bool
    ensures { result ≡ spec.is_assigning kind.now }
{
    matches!(kind, NodeKind::Assign(_) | NodeKind::SetField(_))
}

// Whether the node with this number assigns.
fn node_assigns(core: &Core, node: u32) -> bool
    ensures { result ≡ spec.node_assigns (slice_get core.now.nodes node) }
{
    match core.node_at(node) {
        Some(found) => assigns(&found.kind),
        None => false,
    }
}

/// Whether the child ends with an assignment.
#[tactic(auto, unfolding(crate::specs::Nodes::is_assigned))]
pub(crate) fn is_assigned(stop: &Stop, index: usize) -> bool
    ensures { result ≡ spec.is_assigned stop.now index }
{
    match child(stop.node(), index) {
        Some(number) => node_assigns(stop.core(), last_value(stop.core(), number)),
        None => false,
    }
}

fn is_iso_cap(cap: Cap) -> bool
    ensures { result ≡ spec.is_iso_cap cap }
{
    matches!(cap, Cap::Iso)
}

fn if_iso(slot: u32, ty: Option<(u32, Cap)>) -> Option<u32>
    ensures { result ≡ spec.if_iso slot ty }
{
    match ty {
        Some(found) => {
            if is_iso_cap(found.1) {
                Some(slot)
            } else {
                None
            }
        }
        None => None,
    }
}

// The slot that the node reads, if it is a local of iso.
#[tactic(auto, unfolding(crate::specs::Nodes::iso_slot))]
fn iso_slot(stop: &Stop, node: &Node) -> Option<u32>
    ensures { result ≡ spec.iso_slot stop.now node.now }
{
    let slot = node.kind.local_slot()?;
    if_iso(slot, stop.scene().slot_type(node.method, slot))
}

/// The local of iso with which the first child of a `recover` ends.
#[tactic(auto, unfolding(crate::specs::Nodes::end_slot))]
pub(crate) fn end_slot(stop: &Stop, node: &Node) -> Option<u32>
    ensures { result ≡ spec.end_slot stop.now node.now }
{
    let core = stop.core();
    let body = child(node, 0)?;
    let end = core.node_at(last_value(core, body))?;
    iso_slot(stop, end)
}

// Whether a node of this kind is a `recover` without a written capability.
fn is_unwritten(kind: &NodeKind) -> bool
    ensures { result ≡ spec.is_unwritten kind.now }
{
    matches!(kind, NodeKind::Recover(None))
}

/// The local of iso with which the body ends, if the node is a `recover` without a written capability.
#[tactic(auto, unfolding(crate::specs::Nodes::recovered_slot))]
pub(crate) fn recovered_slot(stop: &Stop, node: &Node) -> Option<u32>
    ensures { result ≡ spec.recovered_slot stop.now node.now }
{
    if is_unwritten(&node.kind) {
        end_slot(stop, node)
    } else {
        None
    }
}

fn is_branching(kind: &NodeKind) -> bool
    ensures { result ≡ spec.is_branching kind.now }
{
    matches!(kind, NodeKind::If | NodeKind::While)
}

fn ends_with(core: &Core, number: u32, node: Option<u32>) -> bool
    ensures { result ≡ spec.ends_with core.now number node }
{
    match node {
        Some(found) => last_value(core, found) == number,
        None => false,
    }
}

// Whether the node is an `if` or a `while` whose condition ends with the one with this number.
fn has_condition(core: &Core, number: u32, node: &Node) -> bool
    ensures { result ≡ spec.has_condition core.now number node.now }
{
    is_branching(&node.kind) && ends_with(core, number, child(node, 0))
}

/// Whether the condition of an `if` or a `while` ends with the node.
#[tactic(auto, unfolding(crate::specs::Nodes::is_in_condition))]
pub(crate) fn is_in_condition(stop: &Stop) -> bool
    ensures { result ≡ spec.is_in_condition stop.now }
{
    let core = stop.core();
    let number = stop.number();
    core.nodes()
        .iter()
        .any(|node| has_condition(core, number, node))
}
