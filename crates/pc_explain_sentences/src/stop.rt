//! A node at which no rule holds, and what can be read from it.
ghost use Rattle.std.specs.Prelude.{◌≡◌, Some, slice_get};
ghost use Rattle.std.specs.Option.{option_copied};
ghost use Rattle.pc_explain_sentences.specs.Stop as spec;

use pc_caps::Form;
use pc_core::{Core, EntityDef, Method, Node, NodeKind};
use pc_explain_parts::{callee, child_role, shown_node};
use pc_explain_words::{Scene, child, entity_name, name_text};
use pc_masks::Mask;
use std::marker::Model;

/// A node at which no rule holds, its number, and the masks before it.
#[derive(Drop)]
pub struct Stop<'a> {
    scene: &'a Scene<'a>,
    number: u32,
    node: &'a Node,
    live: Mask,
    set: Mask,
}

impl<'a> Model for Stop<'a> {
    ghost use Rattle.pc_explain_sentences.specs.Stop.{StopData};

    ghost Value = { StopData };

    ghost view = { λ s. record { scene = s.scene.now; number = s.number; at = s.node.now; live = s.live; set = s.set } };
}

impl<'a> Stop<'a> {
    /// The node with this number, at which no rule holds, with these masks before it.
    pub fn new(scene: &'a Scene<'a>, number: u32, node: &'a Node, live: Mask, set: Mask) -> Stop<'a>
        ensures { result ≡ record { scene = scene.now; number = number; at = node.now; live = live; set = set } }
    {
        Stop {
            scene,
            number,
            node,
            live,
            set,
        }
    }

    /// A node of the scene, with empty masks.
    pub(crate) fn without_masks(scene: &'a Scene<'a>, number: u32, node: &'a Node) -> Stop<'a>
        ensures { result ≡ spec.stop_without_masks scene.now number node.now }
    {
        Stop::new(scene, number, node, Mask::first(0), Mask::first(0))
    }

    /// What the explanation looks at.
    pub fn scene(&self) -> &'a Scene<'a>
        ensures { result.now ≡ self.now.scene }
    {
        self.scene
    }

    /// The core.
    pub fn core(&self) -> &'a Core
        ensures { result.now ≡ self.now.scene.core }
    {
        self.scene.core()
    }

    /// The node's number.
    pub fn number(&self) -> u32
        ensures { result ≡ self.now.number }
    {
        self.number
    }

    /// The node.
    pub fn node(&self) -> &'a Node
        ensures { result.now ≡ self.now.at }
    {
        self.node
    }

    /// The live slots before it.
    pub fn live(&self) -> Mask
        ensures { result ≡ self.now.live }
    {
        self.live
    }

    /// The set fields before it.
    pub fn set(&self) -> Mask
        ensures { result ≡ self.now.set }
    {
        self.set
    }

    /// The type of the child with this index.
    #[tactic(auto, unfolding(crate::specs::Stop::child_type))]
    pub fn child_type(&self, index: usize) -> Option<(u32, Form)>
        ensures { result ≡ spec.child_type self.now index }
    {
        let number = child(self.node, index)?;
        self.scene.type_of(number)
    }

    /// The form of the child with this index.
    #[tactic(auto, unfolding(crate::specs::Stop::child_form))]
    pub fn child_form(&self, index: usize) -> Form
        ensures { result ≡ spec.child_form self.now index }
    {
        match self.child_type(index) {
            Some(ty) => ty.1,
            None => Form::Tag,
        }
    }

    /// The name of the entity of the child with this index.
    #[tactic(auto, unfolding(crate::specs::Stop::child_entity))]
    pub fn child_entity(&self, index: usize) -> &'a [u8]
        ensures { result.now ≡ spec.child_entity self.now index }
    {
        match self.child_type(index) {
            Some(ty) => entity_name(self.scene.core(), ty.0),
            None => b"",
        }
    }

    /// The node that the child with this index shows.
    #[tactic(auto, unfolding(crate::specs::Stop::child_node))]
    pub fn child_node(&self, index: usize) -> Option<&'a Node>
        ensures { option_copied result ≡ spec.child_node self.now index }
    {
        let number = child(self.node, index)?;
        let core = self.scene.core();
        core.node_at(shown_node(core, child_role(self.node, index), number))
    }

    /// The index of a call's receiver.
    pub fn receiver_index(&self) -> usize
        ensures { result ≡ spec.receiver_child_index self.now }
    {
        self.node.children.len().saturating_sub(1)
    }

    /// The method that the node belongs to.
    pub fn own_method(&self) -> Option<&'a Method>
        ensures { option_copied result ≡ spec.own_method self.now }
    {
        self.scene.core().method_at(self.node.method)
    }

    // The method that a call calls.
    fn called(&self) -> Option<&'a Method>
        ensures { option_copied result ≡ spec.method_of_call self.now }
    {
        let name = self.node.kind.called_name()?;
        callee(self.scene, self.node, name)
    }

    /// The method whose parameters the arguments go to.
    #[tactic(auto, unfolding(crate::specs::Stop::node_method))]
    pub fn method(&self) -> Option<&'a Method>
        ensures { option_copied result ≡ spec.node_method self.now }
    {
        match self.node.kind.constructor() {
            Some(method) => self.scene.core().method_at(method),
            None => self.called(),
        }
    }

    /// The name of a slot of the node's method.
    #[tactic(auto, unfolding(crate::specs::Stop::own_slot))]
    pub fn own_slot(&self, slot: u32) -> &'a [u8]
        ensures { result.now ≡ spec.own_slot self.now slot }
    {
        self.scene.slot_name(self.node.method, slot)
    }

    /// The name of the field or the method that the node names.
    #[tactic(auto, unfolding(crate::specs::Stop::named_member))]
    pub fn named(&self) -> &'a [u8]
        ensures { result.now ≡ spec.named_member self.now }
    {
        name_text(self.scene.core(), name_by(&self.node.kind))
    }

    /// The name of the entity that the node's method belongs to.
    #[tactic(auto, unfolding(crate::specs::Stop::own_entity))]
    pub fn own_entity(&self) -> &'a [u8]
        ensures { result.now ≡ spec.own_entity self.now }
    {
        match self.scene.core().method_at(self.node.method) {
            Some(method) => entity_name(self.scene.core(), method.entity),
            None => b"",
        }
    }

    /// The name of the field with this index of its method's entity.
    #[tactic(auto, unfolding(crate::specs::Stop::own_field_name))]
    pub fn own_field(&self, field: u32) -> &'a [u8]
        ensures { result.now ≡ spec.own_field_name self.now field }
    {
        let core = self.scene.core();
        match core.method_at(self.node.method) {
            Some(method) => field_at(core, method.entity, field),
            None => b"",
        }
    }
}

// The number of the name of the field or the method that a node of this kind names.
fn name_by(kind: &NodeKind) -> u32
    ensures { result ≡ spec.name_by kind.now }
{
    kind.member_name().unwrap_or(0)
}

// The name of the field with this index of an entity.
fn field_in<'a>(core: &'a Core, entity: &EntityDef, field: u32) -> &'a [u8]
    ensures { result.now ≡ spec.field_text_in core.now (Some entity.now) field }
{
    match entity.fields.get(field as usize) {
        Some(found) => name_text(core, found.name),
        None => b"",
    }
}

// The same for the entity with this number.
fn field_at(core: &Core, entity: u32, field: u32) -> &[u8]
    ensures { result.now ≡ spec.field_text_in core.now (slice_get core.now.entities entity) field }
{
    match core.entity_at(entity) {
        Some(found) => field_in(core, found, field),
        None => b"",
    }
}
