//! The places of the names of a file.
ghost use Rattle.std.specs.Prelude.{◌≡◌, map, IfOk};
ghost use Rattle.pc_explain_names.specs.Lists as spec;
ghost use Rattle.pc_tree.specs.View.{entity_view, field_view, method_view};

use pc_base::Span;
use pc_tree::{Entity, FieldDef, MethodDef, Name, ParamDef};
use std::alloc::{AllocError, Global};

fn entity_span(entity: &Entity) -> Span
    ensures { result ≡ spec.entity_name_span (entity_view entity.now) }
{
    entity.name.span
}

fn field_span(field: &FieldDef) -> Span
    ensures { result ≡ spec.field_span (field_view field.now) }
{
    field.name.span
}

fn method_span(method: &MethodDef) -> Span
    ensures { result ≡ spec.method_name_span (method_view method.now) }
{
    method.name.span
}

fn param_span(param: &ParamDef) -> Span
    ensures { result ≡ spec.param_name_span param.now }
{
    param.name.span
}

fn name_span(name: &Name) -> Span
    ensures { result ≡ spec.name_span name.now }
{
    name.span
}

/// The places of the names of entities.
pub(crate) fn entity_spans(alloc: Global, entities: &[Entity]) -> Result<Vec<Span>, AllocError>
    ensures { IfOk result (λ spans. spans.items ≡ map spec.entity_name_span (map entity_view entities.now)) }
{
    let mut spans = Vec::new(alloc);
    for entity in entities {
        spans.push(entity_span(entity))?;
    }
    Ok(spans)
}

/// The places of the names of fields.
pub(crate) fn field_spans(alloc: Global, fields: &[FieldDef]) -> Result<Vec<Span>, AllocError>
    ensures { IfOk result (λ spans. spans.items ≡ map spec.field_span (map field_view fields.now)) }
{
    let mut spans = Vec::new(alloc);
    for field in fields {
        spans.push(field_span(field))?;
    }
    Ok(spans)
}

/// The places of the names of methods.
pub(crate) fn method_spans(alloc: Global, methods: &[MethodDef]) -> Result<Vec<Span>, AllocError>
    ensures { IfOk result (λ spans. spans.items ≡ map spec.method_name_span (map method_view methods.now)) }
{
    let mut spans = Vec::new(alloc);
    for method in methods {
        spans.push(method_span(method))?;
    }
    Ok(spans)
}

/// The places of the names of parameters.
pub(crate) fn param_spans(alloc: Global, params: &[ParamDef]) -> Result<Vec<Span>, AllocError>
    ensures { IfOk result (λ spans. spans.items ≡ map spec.param_name_span params.now) }
{
    let mut spans = Vec::new(alloc);
    for param in params {
        spans.push(param_span(param))?;
    }
    Ok(spans)
}

/// The places of names.
pub(crate) fn name_spans(alloc: Global, names: &[Name]) -> Result<Vec<Span>, AllocError>
    ensures { IfOk result (λ spans. spans.items ≡ map spec.name_span names.now) }
{
    let mut spans = Vec::new(alloc);
    for name in names {
        spans.push(name_span(name))?;
    }
    Ok(spans)
}
