//! What already has a name, and entities by their names.
ghost use Rattle.std.specs.Prelude.{◌≡◌, map, IfOk};
ghost use Rattle.std.specs.Option.{option_map};
ghost use Rattle.std.specs.Str.{bytes_eq};
ghost use Rattle.pc_explain_names.specs.Bearers as spec;
ghost use Rattle.pc_tree.specs.View.{entity_view, field_view, file_view, method_view};

use crate::homes::{marks_at, params_of};
use crate::lists::{first_other, is_other};
use crate::marks::push_locals;
use crate::spans::{field_spans, method_spans};
use pc_base::Span;
use pc_tree::{Entity, EntityKind, FieldDef, File, MethodDef};
use std::alloc::{AllocError, Global};

/// What has a name.
#[derive(Clone, Copy, Debug, PartialEq, Eq)]
pub enum Bearer {
    Parameter,
    Local,
    Field,
    Method,
    /// An entity of this kind.
    Entity(EntityKind),
}

/// A thing with a name, and the place of the name.
type Found = Option<(Bearer, Span)>;

/// The word for a kind of entity.
pub fn kind_word(kind: EntityKind) -> &'static [u8]
    ensures { result.now ≡ spec.kind_word kind }
{
    match kind {
        EntityKind::Class => b"class",
        EntityKind::Actor => b"actor",
        EntityKind::Primitive => b"primitive",
        EntityKind::Trait => b"trait",
        EntityKind::Interface => b"interface",
    }
}

/// The word for what has a name.
pub(crate) fn bearer_word(bearer: Bearer) -> &'static [u8]
    ensures { result.now ≡ spec.word bearer }
{
    match bearer {
        Bearer::Parameter => b"parameter",
        Bearer::Local => b"local",
        Bearer::Field => b"field",
        Bearer::Method => b"method",
        Bearer::Entity(kind) => kind_word(kind),
    }
}

// What was found, with its kind.
fn as_bearer(bearer: Bearer, found: Option<Span>) -> Found
    ensures { result ≡ spec.as_bearer bearer found }
{
    match found {
        Some(span) => Some((bearer, span)),
        None => None,
    }
}

// The first entity with this name, other than at this byte.
fn entity_bearer(bytes: &[u8], name: &[u8], at: u32, entities: &[Entity]) -> Found
    ensures { result ≡ spec.entity_bearer bytes.now name.now at (map entity_view entities.now) }
{
    for entity in entities {
        if is_other(bytes, name, at, entity.name.span) {
            return Some((Bearer::Entity(entity.kind), entity.name.span));
        }
    }
    None
}

// The first parameter with this name, other than at this byte.
#[tactic(auto, unfolding(crate::specs::Bearers::param_bearer))]
fn param_bearer(
    alloc: Global,
    bytes: &[u8],
    method: Option<&MethodDef>,
    name: &[u8],
    at: u32,
) -> Result<Found, AllocError>
    ensures { IfOk result (λ found. found ≡ spec.param_bearer bytes.now (option_map (λ m. method_view m.now) method.entry) name.now at) }
{
    let spans = params_of(alloc, method)?;
    Ok(as_bearer(Bearer::Parameter, first_other(bytes, name, at, &spans)))
}

// The first visible local with this name, other than at this byte.
#[tactic(auto, unfolding(crate::specs::Bearers::local_bearer))]
fn local_bearer(
    alloc: Global,
    bytes: &[u8],
    entity: &Entity,
    method: Option<&MethodDef>,
    name: &[u8],
    at: u32,
) -> Result<Found, AllocError>
    ensures { IfOk result (λ found. found ≡ spec.local_bearer bytes.now (entity_view entity.now) (option_map (λ m. method_view m.now) method.entry) name.now at) }
{
    let marks = marks_at(alloc, at, entity, method)?;
    let mut spans = Vec::new(alloc);
    push_locals(&mut spans, &marks)?;
    Ok(as_bearer(Bearer::Local, first_other(bytes, name, at, &spans)))
}

// The first field with this name, other than at this byte.
#[tactic(auto, unfolding(crate::specs::Bearers::field_bearer))]
fn field_bearer(
    alloc: Global,
    bytes: &[u8],
    fields: &[FieldDef],
    name: &[u8],
    at: u32,
) -> Result<Found, AllocError>
    ensures { IfOk result (λ found. found ≡ spec.field_bearer bytes.now (map field_view fields.now) name.now at) }
{
    let spans = field_spans(alloc, fields)?;
    Ok(as_bearer(Bearer::Field, first_other(bytes, name, at, &spans)))
}

// The first method with this name, other than at this byte.
#[tactic(auto, unfolding(crate::specs::Bearers::method_bearer))]
fn method_bearer(
    alloc: Global,
    bytes: &[u8],
    methods: &[MethodDef],
    name: &[u8],
    at: u32,
) -> Result<Found, AllocError>
    ensures { IfOk result (λ found. found ≡ spec.method_bearer bytes.now (map method_view methods.now) name.now at) }
{
    let spans = method_spans(alloc, methods)?;
    Ok(as_bearer(Bearer::Method, first_other(bytes, name, at, &spans)))
}

// The first member of the entity, or else entity of the file, with this name, other than at this byte.
#[tactic(auto, unfolding(crate::specs::Bearers::outer_bearer))]
fn outer_bearer(
    alloc: Global,
    bytes: &[u8],
    file: &File,
    entity: &Entity,
    name: &[u8],
    at: u32,
) -> Result<Found, AllocError>
    ensures { IfOk result (λ found. found ≡ spec.outer_bearer bytes.now (file_view file.now) (entity_view entity.now) name.now at) }
{
    let found = field_bearer(alloc, bytes, entity.fields.as_slice(), name, at)?;
    if found.is_some() {
        return Ok(found);
    }
    let found = method_bearer(alloc, bytes, entity.methods.as_slice(), name, at)?;
    if found.is_some() {
        return Ok(found);
    }
    Ok(entity_bearer(bytes, name, at, file.entities.as_slice()))
}

/// The first thing with this name, other than at this byte, that is visible there: a parameter, a local, a field, a
/// method or an entity.
#[tactic(auto, unfolding(crate::specs::Bearers::bearer_of))]
pub(crate) fn bearer_of(
    alloc: Global,
    bytes: &[u8],
    file: &File,
    entity: &Entity,
    method: Option<&MethodDef>,
    name: &[u8],
    at: u32,
) -> Result<Found, AllocError>
    ensures { IfOk result (λ found. found ≡ spec.bearer_of bytes.now (file_view file.now) (entity_view entity.now) (option_map (λ m. method_view m.now) method.entry) name.now at) }
{
    let found = param_bearer(alloc, bytes, method, name, at)?;
    if found.is_some() {
        return Ok(found);
    }
    let found = local_bearer(alloc, bytes, entity, method, name, at)?;
    if found.is_some() {
        return Ok(found);
    }
    outer_bearer(alloc, bytes, file, entity, name, at)
}

/// The field or the method of the entity that is called `create`, other than at this byte.
#[tactic(auto, unfolding(crate::specs::Bearers::create_bearer))]
pub(crate) fn create_bearer(
    alloc: Global,
    bytes: &[u8],
    entity: &Entity,
    at: u32,
) -> Result<Found, AllocError>
    ensures { IfOk result (λ found. found ≡ spec.create_bearer bytes.now (entity_view entity.now) at) }
{
    let found = field_bearer(alloc, bytes, entity.fields.as_slice(), b"create", at)?;
    if found.is_some() {
        return Ok(found);
    }
    method_bearer(alloc, bytes, entity.methods.as_slice(), b"create", at)
}

// Whether the name is this text.
fn is_text(name: &[u8], text: &str) -> bool
    ensures { result ≡ bytes_eq name.now text.now }
{
    name == text.as_bytes()
}

// Whether the name is that of a built-in primitive.
fn is_value(name: &[u8]) -> bool
    ensures { result ≡ spec.is_value name.now }
{
    is_text(name, "None")
        || is_text(name, "U64")
        || is_text(name, "Bool")
        || is_text(name, "String")
}

// The kind of the entity with this name, if every program has it.
#[tactic(auto, unfolding(crate::specs::Bearers::built_in_kind))]
fn built_in_kind(name: &[u8]) -> Option<EntityKind>
    ensures { result ≡ spec.built_in_kind name.now }
{
    if is_value(name) {
        Some(EntityKind::Primitive)
    } else if is_text(name, "Env") {
        Some(EntityKind::Class)
    } else if is_text(name, "OutStream") {
        Some(EntityKind::Actor)
    } else {
        None
    }
}

/// Whether every program has an entity with this name.
#[tactic(auto, unfolding(crate::specs::Bearers::is_built_in))]
pub(crate) fn is_built_in(name: &[u8]) -> bool
    ensures { result ≡ spec.is_built_in name.now }
{
    built_in_kind(name).is_some()
}

// The kind of the entity with this name, if a file has it.
fn kind_named(name: &[u8], entities: &[Entity]) -> Option<EntityKind>
    ensures { result ≡ spec.kind_named name.now (map entity_view entities.now) }
{
    for entity in entities {
        if entity.name.text.as_slice() == name {
            return Some(entity.kind);
        }
    }
    None
}

/// The kind of the entity with this name, if every program or the file has it.
#[tactic(auto, unfolding(crate::specs::Bearers::known_kind))]
pub(crate) fn known_kind(name: &[u8], entities: &[Entity]) -> Option<EntityKind>
    ensures { result ≡ spec.known_kind name.now (map entity_view entities.now) }
{
    match built_in_kind(name) {
        Some(kind) => Some(kind),
        None => kind_named(name, entities),
    }
}
