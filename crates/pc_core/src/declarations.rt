//! The declarations of a program: its entities with their fields, and the methods.

use pc_base::{List, Span};
use pc_caps::{Cap, Form};
use pc_tree::EntityKind;

/// An entity: a class, an actor, a primitive, a trait or an interface.
#[derive(Debug, Drop)]
pub struct EntityDef {
    pub kind: EntityKind,
    /// The capability of its type if none is written.
    pub cap: Cap,
    pub name: List<u8>,
    /// The place of the name.
    pub span: Span,
    /// The traits and interfaces of its `is` list, by their numbers, in the order of the text.
    pub provides: List<u32>,
    /// The entities to which a chain of at least one `is` leads, by their numbers, in ascending order.
    pub above: List<u32>,
    pub fields: List<FieldInfo>,
    /// The number of its first method; the others follow.
    pub first_method: u32,
    /// How many methods it has.
    pub methods: u32,
}

/// A field of an entity.
#[derive(Clone, Copy, Debug, PartialEq, Eq)]
pub struct FieldInfo {
    /// The number of its name's text.
    pub name: u32,
    /// Whether it is a `let`, which only constructors write.
    pub fixed: bool,
    /// The entity of its type.
    pub entity: u32,
    /// The capability of its type.
    pub cap: Cap,
}

/// The kind of a method.
#[derive(Clone, Copy, Debug, PartialEq, Eq)]
pub enum MethodKind {
    /// A function, which is called.
    Fun,
    /// A behaviour, which is sent.
    Be,
    /// The constructor of a class.
    New,
    /// The constructor of an actor.
    Spawn,
}

/// A parameter of a method.
#[derive(Clone, Copy, Debug, PartialEq, Eq)]
pub struct ParamInfo {
    /// The entity of its type.
    pub entity: u32,
    /// The capability of its type.
    pub cap: Cap,
    /// The place of its name.
    pub span: Span,
}

/// A method: a function, a behaviour or a constructor.
#[derive(Debug, Drop)]
pub struct Method {
    /// The entity that it belongs to.
    pub entity: u32,
    /// The number of its name's text.
    pub name: u32,
    pub kind: MethodKind,
    /// The capability of `this` in it.
    pub receiver: Cap,
    pub params: List<ParamInfo>,
    /// The entity and the form of its result.
    pub result: (u32, Form),
    /// The number of its first slot; the others follow.
    pub first_slot: u32,
    /// How many slots it has.
    pub slots: u32,
    /// The number of its first node; the others follow, up to its body.
    pub first_node: u32,
    /// The node of its body, or none if it has no body.
    pub body: Option<u32>,
    /// The place of its name.
    pub span: Span,
}
