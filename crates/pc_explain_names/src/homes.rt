//! Where a byte is in a file, and what is found there.
ghost use Rattle.std.specs.Prelude.{◌≡◌, ◌++◌, map, IfOk, OnOk};
ghost use Rattle.std.specs.List.{count_by};
ghost use Rattle.std.specs.Option.{option_map};
ghost use Rattle.pc_explain_names.specs.Homes as spec;
ghost use Rattle.pc_tree.specs.View.{entity_view, field_view, file_view, maybe_expr, maybe_seq, method_view};

use crate::marks::{Mark, push_expr, push_locals, push_seq};
use crate::spans::{entity_spans, method_spans, param_spans};
use pc_base::{List, Span};
use pc_tree::{Entity, Expr, FieldDef, File, MethodDef, Seq};
use std::alloc::{AllocError, Global};

// How many of these places begin at or before the byte.
fn count_before(spans: &[Span], at: u32) -> usize
    ensures { result ≡ count_by (spec.begins_by at) spans.now }
{
    let mut count = 0;
    for span in spans {
        if span.start <= at {
            count += 1;
        }
    }
    count
}

// The last of the first `count` entities.
fn last_entity(entities: &List<Entity>, count: usize) -> Option<&Entity>
    ensures { option_map (λ e. entity_view e.now) result ≡ spec.last_of_first count (map entity_view entities.now) }
{
    if count == 0 {
        None
    } else {
        entities.get(count - 1)
    }
}

// The last of the first `count` methods.
fn last_method(methods: &List<MethodDef>, count: usize) -> Option<&MethodDef>
    ensures { option_map (λ m. method_view m.now) result ≡ spec.last_of_first count (map method_view methods.now) }
{
    if count == 0 {
        None
    } else {
        methods.get(count - 1)
    }
}

/// How many entities begin at or before a byte.
#[tactic(auto, unfolding(crate::specs::Homes::place_at))]
pub(crate) fn place_at(alloc: Global, file: &File, at: u32) -> Result<usize, AllocError>
    ensures { IfOk result (λ place. place ≡ spec.place_at (file_view file.now) at) }
{
    let spans = entity_spans(alloc, file.entities.as_slice())?;
    Ok(count_before(&spans, at))
}

/// The entity whose text contains a byte.
#[tactic(auto, unfolding(crate::specs::Homes::entity_around))]
pub(crate) fn entity_at(alloc: Global, file: &File, at: u32) -> Result<Option<&Entity>, AllocError>
    ensures { IfOk result (λ found. option_map (λ e. entity_view e.now) found ≡ spec.entity_around (file_view file.now) at) }
{
    let place = place_at(alloc, file, at)?;
    Ok(last_entity(&file.entities, place))
}

/// The method of an entity whose text contains a byte.
#[tactic(auto, unfolding(crate::specs::Homes::method_at))]
pub(crate) fn method_at(
    alloc: Global,
    entity: &Entity,
    at: u32,
) -> Result<Option<&MethodDef>, AllocError>
    ensures { IfOk result (λ found. option_map (λ m. method_view m.now) found ≡ spec.method_at (entity_view entity.now) at) }
{
    let spans = method_spans(alloc, entity.methods.as_slice())?;
    Ok(last_method(&entity.methods, count_before(&spans, at)))
}

// Appends what is found in an initial value, if there is one.
fn push_value(out: &mut Vec<Mark>, at: u32, value: &Option<Expr>) -> Result<(), AllocError>
    ensures { OnOk result (out.new.items ≡ out.old.items ++ spec.value_marks at (maybe_expr value.now)) }
{
    match value {
        Some(value) => push_expr(out, at, value),
        None => Ok(()),
    }
}

// Appends what is found in a body, if there is one.
fn push_body(out: &mut Vec<Mark>, at: u32, body: &Option<Seq>) -> Result<(), AllocError>
    ensures { OnOk result (out.new.items ≡ out.old.items ++ spec.body_marks at (maybe_seq body.now)) }
{
    match body {
        Some(body) => push_seq(out, at, body),
        None => Ok(()),
    }
}

// Appends what is found in the initial values of fields.
fn push_fields(out: &mut Vec<Mark>, at: u32, fields: &[FieldDef]) -> Result<(), AllocError>
    ensures { OnOk result (out.new.items ≡ out.old.items ++ spec.all_field_marks at (map field_view fields.now)) }
{
    for field in fields {
        push_value(out, at, &field.value)?;
    }
    Ok(())
}

/// What is found on the way to a byte: in the method's body, or in the fields' initial values.
#[tactic(auto, unfolding(crate::specs::Homes::marks_at))]
pub(crate) fn marks_at(
    alloc: Global,
    at: u32,
    entity: &Entity,
    method: Option<&MethodDef>,
) -> Result<Vec<Mark>, AllocError>
    ensures { IfOk result (λ marks. marks.items ≡ spec.marks_at at (entity_view entity.now) (option_map (λ m. method_view m.now) method.entry)) }
{
    let mut marks = Vec::new(alloc);
    match method {
        Some(method) => push_body(&mut marks, at, &method.body)?,
        None => push_fields(&mut marks, at, entity.fields.as_slice())?,
    }
    Ok(marks)
}

/// The places of the names of the method's parameters.
pub(crate) fn params_of(alloc: Global, method: Option<&MethodDef>) -> Result<Vec<Span>, AllocError>
    ensures { IfOk result (λ spans. spans.items ≡ spec.param_spans_of (option_map (λ m. method_view m.now) method.entry)) }
{
    match method {
        Some(method) => param_spans(alloc, method.params.as_slice()),
        None => Ok(Vec::new(alloc)),
    }
}

/// The places of the names of the parameters and locals that are visible at a byte.
#[tactic(auto, unfolding(crate::specs::Homes::visible_by))]
pub(crate) fn visible_at(
    alloc: Global,
    method: Option<&MethodDef>,
    marks: &[Mark],
) -> Result<Vec<Span>, AllocError>
    ensures { IfOk result (λ spans. spans.items ≡ spec.visible_by (option_map (λ m. method_view m.now) method.entry) marks.now) }
{
    let mut visible = params_of(alloc, method)?;
    push_locals(&mut visible, marks)?;
    Ok(visible)
}
