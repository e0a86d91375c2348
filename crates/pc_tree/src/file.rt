//! Trees of files: entities, fields, methods.
use crate::expression::{Expr, Seq};
use crate::kinds::{EntityKind, MethodWord};
use crate::written_names::{Name, TypeRef};
use pc_base::List;
use pc_caps::Cap;

/// The tree of a whole source text.
#[derive(Debug, Drop)]
pub struct File {
    pub entities: List<Entity>,
}

/// A class, an actor, a primitive, a trait or an interface (the Pony tutorial).
#[derive(Debug, Drop)]
pub struct Entity {
    pub kind: EntityKind,
    /// The default capability, if one is written: only after `class`, `trait` and `interface`.
    pub cap: Option<Cap>,
    pub name: Name,
    /// The type names after `is`.
    pub provides: List<Name>,
    pub fields: List<FieldDef>,
    pub methods: List<MethodDef>,
}

/// A field.
#[derive(Debug, Drop)]
pub struct FieldDef {
    /// Whether the keyword is `let`: the field is set once, by each constructor.
    pub fixed: bool,
    pub name: Name,
    pub ty: TypeRef,
    /// The initial value, if one is written.
    pub value: Option<Expr>,
}

/// A parameter.
#[derive(Debug, Drop)]
pub struct ParamDef {
    pub name: Name,
    pub ty: TypeRef,
}

/// A method.
#[derive(Debug, Drop)]
pub struct MethodDef {
    pub word: MethodWord,
    /// The capability after the keyword, if one is written: of the receiver after `fun`, of the new object after `new`.
    pub cap: Option<Cap>,
    pub name: Name,
    pub params: List<ParamDef>,
    /// The type of the result, if one is written.
    pub result: Option<TypeRef>,
    /// The body, if there is one.
    pub body: Option<Seq>,
}
