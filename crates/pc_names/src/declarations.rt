//! The faults of an entity's declarations.
ghost use Rattle.std.specs.Prelude.{◌≡◌, ◌||◌, ◌++◌, [], not, length, map, nat_lt, OnOk};
ghost use Rattle.pc_base.specs.Limits.{field_limit};
ghost use Rattle.pc_tree.specs.View.{entity_view, field_view, method_view};
ghost use Rattle.pc_names.specs.Faults as spec;
ghost use Rattle.pc_names.specs.Parts as parts;
ghost use Rattle.pc_names.specs.declared.fault.NameFault.TheVariants.{Double, TooMany};
ghost use Rattle.pc_names.specs.declared.fault.Which.TheVariants.{Fields};
ghost use Rattle.pc_members.specs.MemberLists.{is_among};
ghost use Rattle.pc_members.specs.Members.{field_texts, method_texts};

use crate::fault::{NameFault, Which};
use pc_base::FIELD_LIMIT;
use pc_members::{NameTable, has_added};
use pc_tree::{Entity, FieldDef, MethodDef, Name, ParamDef, TypeRef};
use std::alloc::Global;

// The type names an entity.
fn check_type(entities: &NameTable, ty: &TypeRef) -> Result<(), NameFault>
    ensures { parts.TellsFirst result (spec.type_faults entities.now ty.now) }
{
    if entities.has(ty.name.text.as_slice()) {
        Ok(())
    } else {
        Err(NameFault::Unknown(ty.name.span))
    }
}

// The type, if one is written, names an entity.
fn check_result(entities: &NameTable, ty: &Option<TypeRef>) -> Result<(), NameFault>
    ensures { parts.TellsFirst result (parts.result_faults entities.now ty.now) }
{
    match ty {
        None => Ok(()),
        Some(ty) => check_type(entities, ty),
    }
}

// The names after `is` are traits, each named once.
fn check_provided(alloc: Global, traits: &NameTable, provides: &[Name]) -> Result<(), NameFault>
    ensures { parts.TellsFirst result (spec.provided_faults traits.now [] provides.now) }
{
    let mut known = traits.new_like(alloc);
    add_provided(traits, &mut known, provides)
}

// The same, if the table has the names before these; they are appended to it.
fn add_provided(
    traits: &NameTable,
    known: &mut NameTable,
    provides: &[Name],
) -> Result<(), NameFault>
    ensures { parts.TellsFirst result (spec.provided_faults traits.now known.old provides.now) }
{
    for name in provides {
        if !traits.has(name.text.as_slice()) {
            return Err(NameFault::Unknown(name.span));
        }
        if known.has(name.text.as_slice()) {
            return Err(NameFault::Double(name.span));
        }
        known.add(name.text.as_slice())?;
    }
    Ok(())
}

// The names of the fields are new and differ from each other, there are not too many of them, and their types name
// entities. The names are appended to the table.
fn add_fields(
    entities: &NameTable,
    known: &mut NameTable,
    fields: &[FieldDef],
) -> Result<(), NameFault>
    ensures tells { parts.TellsFirst result (spec.field_faults entities.now known.old (map field_view fields.now)) }
    ensures names { OnOk result (known.new ≡ known.old ++ field_texts (map field_view fields.now)) }
{
    for field in fields {
        check_field_name(known, &field.name)?;
        check_type(entities, &field.ty)?;
        known.add(field.name.text.as_slice())?;
    }
    Ok(())
}

// The name of a field is new, and the table does not have too many names.
fn check_field_name(known: &NameTable, name: &Name) -> Result<(), NameFault>
    ensures { parts.TellsFirst result (spec.either_fault (is_among name.now.text known.now) (Double name.now.span) (not (nat_lt (length known.now) field_limit)) (TooMany Fields name.now.span)) }
{
    if known.has(name.text.as_slice()) {
        return Err(NameFault::Double(name.span));
    }
    if known.len() >= FIELD_LIMIT {
        return Err(NameFault::TooMany(Which::Fields, name.span));
    }
    Ok(())
}

// The names of the parameters are not those of fields, and differ, and their types name entities.
fn check_params(
    alloc: Global,
    entities: &NameTable,
    fields: &NameTable,
    params: &[ParamDef],
) -> Result<(), NameFault>
    ensures { parts.TellsFirst result (spec.param_faults entities.now fields.now [] params.now) }
{
    let mut known = entities.new_like(alloc);
    add_params(entities, fields, &mut known, params)
}

// The same, if the table has the names before these; they are appended to it.
fn add_params(
    entities: &NameTable,
    fields: &NameTable,
    known: &mut NameTable,
    params: &[ParamDef],
) -> Result<(), NameFault>
    ensures { parts.TellsFirst result (spec.param_faults entities.now fields.now known.old params.now) }
{
    for param in params {
        let name = &param.name;
        if is_in_either(fields, known, name) {
            return Err(NameFault::Double(name.span));
        }
        check_type(entities, &param.ty)?;
        known.add(name.text.as_slice())?;
    }
    Ok(())
}

// Whether one of the two tables has the name.
fn is_in_either(one: &NameTable, other: &NameTable, name: &Name) -> bool
    ensures { result ≡ (is_among name.now.text one.now || is_among name.now.text other.now) }
{
    one.has(name.text.as_slice()) || other.has(name.text.as_slice())
}

// The parameters and the result of a method.
#[tactic(auto, using(crate::proofs::Firsts::is_first_on))]
fn check_signature(
    alloc: Global,
    entities: &NameTable,
    fields: &NameTable,
    method: &MethodDef,
) -> Result<(), NameFault>
    ensures { parts.TellsFirst result (spec.signature_faults entities.now fields.now (method_view method.now)) }
{
    check_params(alloc, entities, fields, method.params.as_slice())?;
    check_result(entities, &method.result)
}

// The names of the methods are not those of fields, and differ, and each method has no fault inside it.
fn check_methods(
    alloc: Global,
    entities: &NameTable,
    fields: &NameTable,
    methods: &[MethodDef],
) -> Result<(), NameFault>
    ensures { parts.TellsFirst result (spec.method_faults entities.now fields.now [] (map method_view methods.now)) }
{
    let mut known = entities.new_like(alloc);
    add_methods(alloc, entities, fields, &mut known, methods)
}

// The same, if the table has the names before these; they are appended to it.
fn add_methods(
    alloc: Global,
    entities: &NameTable,
    fields: &NameTable,
    known: &mut NameTable,
    methods: &[MethodDef],
) -> Result<(), NameFault>
    ensures { parts.TellsFirst result (spec.method_faults entities.now fields.now known.old (map method_view methods.now)) }
{
    for method in methods {
        let name = &method.name;
        if is_in_either(fields, known, name) {
            return Err(NameFault::Double(name.span));
        }
        check_signature(alloc, entities, fields, method)?;
        known.add(name.text.as_slice())?;
    }
    Ok(())
}

// The name of an added `create` is not that of a field or a method.
fn check_added(entity: &Entity) -> Result<(), NameFault>
    ensures { parts.TellsFirst result (spec.added_faults (entity_view entity.now)) }
{
    if has_added(entity) && is_taken(entity, b"create") {
        Err(NameFault::Double(entity.name.span))
    } else {
        Ok(())
    }
}

// Whether a field or a method of the entity has this name.
fn is_taken(entity: &Entity, name: &[u8]) -> bool
    ensures { result ≡ parts.is_member_name name.now (entity_view entity.now) }
{
    has_field(entity.fields.as_slice(), name) || has_method(entity.methods.as_slice(), name)
}

fn has_field(fields: &[FieldDef], name: &[u8]) -> bool
    ensures { result ≡ is_among name.now (field_texts (map field_view fields.now)) }
{
    for field in fields {
        if name == field.name.text.as_slice() {
            return true;
        }
    }
    false
}

fn has_method(methods: &[MethodDef], name: &[u8]) -> bool
    ensures { result ≡ is_among name.now (method_texts (map method_view methods.now)) }
{
    for method in methods {
        if name == method.name.text.as_slice() {
            return true;
        }
    }
    false
}

// The fields and methods of one entity.
fn check_members(alloc: Global, entities: &NameTable, entity: &Entity) -> Result<(), NameFault>
    ensures { parts.TellsFirst result (spec.field_faults entities.now [] (entity_view entity.now).fields ++ spec.method_faults entities.now (field_texts (entity_view entity.now).fields) [] (entity_view entity.now).methods) }
{
    let mut fields = entities.new_like(alloc);
    add_members(alloc, entities, &mut fields, entity)
}

// The same, with the names of the fields added to a table without names.
#[tactic(auto, using(crate::proofs::Firsts::is_first_on))]
fn add_members(
    alloc: Global,
    entities: &NameTable,
    fields: &mut NameTable,
    entity: &Entity,
) -> Result<(), NameFault>
    requires { fields.old ≡ [] }
    ensures { parts.TellsFirst result (spec.field_faults entities.now [] (entity_view entity.now).fields ++ spec.method_faults entities.now (field_texts (entity_view entity.now).fields) [] (entity_view entity.now).methods) }
{
    add_fields(entities, fields, entity.fields.as_slice())?;
    check_methods(alloc, entities, fields, entity.methods.as_slice())
}

// The declarations of one entity.
#[tactic(auto, using(crate::proofs::Firsts::is_first_on))]
fn check_entity(
    alloc: Global,
    entities: &NameTable,
    traits: &NameTable,
    entity: &Entity,
) -> Result<(), NameFault>
    ensures { parts.TellsFirst result (spec.entity_faults entities.now traits.now (entity_view entity.now)) }
{
    check_added(entity)?;
    check_provided(alloc, traits, entity.provides.as_slice())?;
    check_members(alloc, entities, entity)
}

/// The declarations of these entities, one after the other.
#[tactic(auto, using(crate::proofs::Firsts::is_first_on))]
pub(crate) fn check_entities(
    alloc: Global,
    entities: &NameTable,
    traits: &NameTable,
    all: &[Entity],
) -> Result<(), NameFault>
    ensures { parts.TellsFirst result (parts.entities_faults entities.now traits.now (map entity_view all.now)) }
{
    for entity in all {
        check_entity(alloc, entities, traits, entity)?;
    }
    Ok(())
}
