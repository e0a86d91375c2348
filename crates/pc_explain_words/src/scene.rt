//! What an explanation looks at: a source with its tokens and its core, the types of the core's slots, and the notes of its
//! first nodes.
ghost use Rattle.std.specs.Prelude.{◌≡◌, drop};
ghost use Rattle.std.specs.List.{find};
ghost use Rattle.std.specs.Option.{option_copied};
ghost use Rattle.pc_explain_words.specs.Scene as spec;

use pc_ann::Note;
use pc_caps::{Cap, Form};
use pc_core::{Core, Method, Node, NodeKind, Slot, SlotKind};
use pc_explain_window::piece_of;
use pc_token::Token;
use std::marker::Model;

/// A source with its tokens and its core, the types of the core's slots, and the notes of its first nodes.
#[derive(Drop)]
pub struct Scene<'a> {
    bytes: &'a [u8],
    tokens: &'a [Token],
    core: &'a Core,
    slots: &'a [(u32, Cap)],
    notes: &'a [Note],
}

impl<'a> Model for Scene<'a> {
    ghost use Rattle.pc_explain_words.specs.Scene.{SceneData};

    ghost Value = { SceneData };

    ghost view = { λ s. record { bytes = s.bytes.now; tokens = s.tokens.now; core = s.core.now; slots = s.slots.now; notes = s.notes.now } };
}

impl<'a> Scene<'a> {
    /// What an explanation looks at, from its parts.
    pub fn new(
        bytes: &'a [u8],
        tokens: &'a [Token],
        core: &'a Core,
        slots: &'a [(u32, Cap)],
        notes: &'a [Note],
    ) -> Scene<'a>
        ensures { result ≡ record { bytes = bytes.now; tokens = tokens.now; core = core.now; slots = slots.now; notes = notes.now } }
    {
        Scene {
            bytes,
            tokens,
            core,
            slots,
            notes,
        }
    }

    /// The source's bytes.
    pub fn bytes(&self) -> &'a [u8]
        ensures { result.now ≡ self.now.bytes }
    {
        self.bytes
    }

    /// The core.
    pub fn core(&self) -> &'a Core
        ensures { result.now ≡ self.now.core }
    {
        self.core
    }

    /// The notes of the first nodes.
    pub fn notes(&self) -> &'a [Note]
        ensures { result.now ≡ self.now.notes }
    {
        self.notes
    }

    /// The type of a node, if it has one.
    #[tactic(auto, unfolding(crate::specs::Scene::noted_type))]
    pub fn type_of(&self, node: u32) -> Option<(u32, Form)>
        ensures { result ≡ spec.noted_type self.now node }
    {
        let note = self.notes.get(node as usize)?;
        note.ty
    }

    /// A slot of a method, by index.
    #[tactic(auto, unfolding(crate::specs::Scene::slot_in))]
    pub fn slot_in(&self, method: u32, index: u32) -> Option<Slot>
        ensures { result ≡ spec.slot_in self.now method index }
    {
        let found = self.core.method_at(method)?;
        self.core.slot_at(found, index).copied()
    }

    /// The type of a slot of a method.
    #[tactic(auto, unfolding(crate::specs::Scene::noted_slot_type))]
    pub fn slot_type(&self, method: u32, index: u32) -> Option<(u32, Cap)>
        ensures { result ≡ spec.noted_slot_type self.now method index }
    {
        let found = self.core.method_at(method)?;
        self.slots
            .get(found.first_slot as usize + index as usize)
            .copied()
    }

    /// Whether a slot belongs to a parameter.
    #[tactic(auto, unfolding(crate::specs::Scene::is_param))]
    pub fn is_param(&self, method: u32, index: u32) -> bool
        ensures { result ≡ spec.is_param self.now method index }
    {
        match self.slot_in(method, index) {
            Some(slot) => matches!(slot.kind, SlotKind::Param),
            None => false,
        }
    }

    /// Whether it is a `var`.
    #[tactic(auto, unfolding(crate::specs::Scene::is_var_slot))]
    pub fn is_var(&self, method: u32, index: u32) -> bool
        ensures { result ≡ spec.is_var_slot self.now method index }
    {
        match self.slot_in(method, index) {
            Some(slot) => matches!(slot.kind, SlotKind::Var),
            None => false,
        }
    }

    /// The name of a slot.
    #[tactic(auto, unfolding(crate::specs::Scene::slot_name))]
    pub fn slot_name(&self, method: u32, index: u32) -> &'a [u8]
        ensures { result.now ≡ spec.slot_name self.now method index }
    {
        match self.core.method_at(method) {
            Some(found) => self.name_in(found, index),
            None => b"",
        }
    }

    // The name of a slot of this method.
    fn name_in(&self, method: &Method, index: u32) -> &'a [u8]
        ensures { result.now ≡ spec.name_of_slot self.now method.now index }
    {
        if index == 0 {
            return b"this";
        }
        match method.params.get(index as usize - 1) {
            Some(param) => piece_of(self.bytes, param.span),
            None => self.local_name(method, index),
        }
    }

    // The name of a local, which follows the keyword of its definition.
    fn local_name(&self, method: &Method, index: u32) -> &'a [u8]
        ensures { result.now ≡ spec.local_name self.now method.now index }
    {
        match definition(nodes_from(self.core.nodes(), method.first_node), index) {
            Some(node) => self.name_after(node.span.start),
            None => b"",
        }
    }

    // The first token that starts after this byte.
    fn name_after(&self, at: u32) -> &'a [u8]
        ensures { result.now ≡ spec.token_text self.now (find (spec.starts_after at) self.now.tokens) }
    {
        match token_after(self.tokens, at) {
            Some(token) => piece_of(self.bytes, token.span),
            None => b"",
        }
    }

    /// Whether the node with this number is a `this` that is not written in the source.
    #[tactic(auto, unfolding(crate::specs::Scene::is_unwritten_this))]
    pub fn is_unwritten_this(&self, node: u32) -> bool
        ensures { result ≡ spec.is_unwritten_this self.now node }
    {
        match self.core.node_at(node) {
            Some(found) => {
                is_this(&found.kind) && piece_of(self.bytes, found.span) != b"this".as_slice()
            }
            None => false,
        }
    }
}

/// Whether a node of this kind is `this`.
pub fn is_this(kind: &NodeKind) -> bool
    ensures { result ≡ spec.is_this_kind kind.now }
{
    matches!(kind, NodeKind::This)
}

/// The child of a node, by index.
pub fn child(node: &Node, index: usize) -> Option<u32>
    ensures { result ≡ spec.child node.now index }
{
    node.children.as_slice().get(index).copied()
}

// The nodes from this number on.
fn nodes_from(nodes: &[Node], first: u32) -> &[Node]
    ensures { result.now ≡ drop first nodes.now }
{
    &nodes[(first as usize).min(nodes.len())..]
}

// Whether the node defines the slot with this index.
fn defines(index: u32, node: &Node) -> bool
    ensures { result ≡ spec.defines_index index node.now }
{
    match node.kind.defined_slot() {
        Some(slot) => slot == index,
        None => false,
    }
}

// The first of these nodes that defines the slot with this index.
fn definition(nodes: &[Node], index: u32) -> Option<&Node>
    ensures { option_copied result ≡ find (spec.defines_index index) nodes.now }
{
    nodes.iter().find(|node| defines(index, node))
}

// The first token that starts after this byte.
fn token_after(tokens: &[Token], at: u32) -> Option<&Token>
    ensures { option_copied result ≡ find (spec.starts_after at) tokens.now }
{
    tokens.iter().find(|token| token.span.start > at)
}
