//! The nodes of whole bodies.
ghost use Rattle.std.specs.Prelude.{◌≡◌, ◌++◌, [], IfOk, map};
ghost use Rattle.pc_tree.specs.View.{expr_view, field_view, maybe_expr, items_view, method_view, seq_view};
ghost use Rattle.pc_body_spec.specs.Bodies as spec;
ghost use Rattle.pc_body_spec.specs.Parts as parts;
ghost use Rattle.pc_body_spec.specs.Bodies.{Roses, params_scope as scope_of};
ghost use Rattle.pc_body_spec.specs.Fold.{put, puts};
ghost use Rattle.pc_emit.specs.Giving.{GivesNodes, GivesBody};
ghost use Rattle.pc_emit.specs.Closing.{LeadsOn, behind_tops, ends_with, body_closes};

use crate::name_nodes::write_field;
use crate::nodes::{leaf, single};
use crate::setting::Setting;
use crate::stop::EmitStop;
use crate::tops::Tops;
use crate::waiting::close_sequence;
use crate::walk::{expr, items};
use pc_base::{List, Span};
use pc_core::{Node, NodeKind};
use pc_resolve::{Context, params_scope};
use pc_tree::{Expr, FieldDef, MethodDef, MethodWord, NONE_ENTITY, Name, Seq, TypeRef};
use std::alloc::{AllocError, Global};

/// Emits the nodes of the body of a method after the others, and returns the number of the body, which is the last of
/// them; or `None` if no body is written, and then the nodes are as before. The method has this number, and its entity
/// these fields. `Full` iff there would be more than 200,000 nodes. After an `Err` nothing is known about the nodes.
pub fn emit(
    alloc: Global,
    context: &Context,
    number: u32,
    nodes: &mut List<Node>,
    fields: &[FieldDef],
    method: &MethodDef,
) -> Result<Option<u32>, EmitStop>
    ensures gives { GivesBody result nodes.new (spec.body_of context.now (map field_view fields.now) (method_view method.now)) number nodes.old }
{
    match &method.body {
        Some(seq) => {
            let body = written(alloc, context, number, nodes, fields, method, seq)?;
            Ok(Some(body))
        }
        None => Ok(None),
    }
}

/// Emits the nodes of the body of a `create` that is added to an entity, whose name has this span, and returns the
/// number of the body, like `emit`.
pub fn emit_added(
    alloc: Global,
    context: &Context,
    number: u32,
    nodes: &mut List<Node>,
    fields: &[FieldDef],
    name: Span,
) -> Result<u32, EmitStop>
    ensures gives { GivesNodes result nodes.new (put number (spec.added_body context.now (map field_view fields.now) name) nodes.old) }
{
    let setting = Setting {
        alloc,
        context,
        number,
        depth: 0,
    };
    let mut items = initials(alloc, context, number, nodes, fields)?;
    let none = leaf(&setting, nodes, NodeKind::Prim(NONE_ENTITY), name)?;
    items.push(none)?;
    close_body(&setting, nodes, name, name, items)
}

// The written body of a method.
fn written(
    alloc: Global,
    context: &Context,
    number: u32,
    nodes: &mut List<Node>,
    fields: &[FieldDef],
    method: &MethodDef,
    seq: &Seq,
) -> Result<u32, EmitStop>
    ensures { GivesNodes result nodes.new (put number (spec.body_with context.now (map field_view fields.now) (method_view method.now) (seq_view seq.now)) nodes.old) }
{
    let fields = initial_fields(method.word, fields);
    let first = initials(alloc, context, number, nodes, fields)?;
    let own = own_items(alloc, context, number, nodes, method, seq)?;
    let all = append(first, own.as_slice())?;
    let setting = Setting {
        alloc,
        context,
        number,
        depth: 0,
    };
    close_body(&setting, nodes, method.name.span, seq.span, all)
}

// The items of the body of a method, followed by None if a function has no written result.
fn own_items(
    alloc: Global,
    context: &Context,
    number: u32,
    nodes: &mut List<Node>,
    method: &MethodDef,
    seq: &Seq,
) -> Result<Tops, EmitStop>
    ensures { GivesNodes result nodes.new (puts number (spec.none_last (spec.gives_none method.now.word method.now.result) method.now.name.span (spec.roses_of_items context.now (scope_of method.now.params) 0 (items_view seq.now.items))) nodes.old) }
{
    let mut scope = params_scope(alloc, method.params.as_slice())?;
    let setting = Setting {
        alloc,
        context,
        number,
        depth: 0,
    };
    let own = items(&setting, &mut scope, nodes, seq.items.as_slice())?;
    let adds = gives_none(method.word, &method.result);
    none_last(&setting, nodes, method.name.span, adds, own)
}

// Only constructors start with the initial values.
fn initial_fields(word: MethodWord, fields: &[FieldDef]) -> &[FieldDef]
    ensures { map field_view result.now ≡ spec.initial_fields word (map field_view fields.now) }
{
    match word {
        MethodWord::New => fields,
        MethodWord::Fun | MethodWord::Be => &[],
    }
}

// Whether a method returns None at the end of its items: a function without a written result.
fn gives_none(word: MethodWord, ty: &Option<TypeRef>) -> bool
    ensures { result ≡ spec.gives_none word ty.now }
{
    match word {
        MethodWord::Fun => ty.is_none(),
        MethodWord::Be | MethodWord::New => false,
    }
}

// Appends the value None to the items, if one is added.
#[tactic(auto, unfolding(crate::specs::Closing::ends_with))]
fn none_last(
    setting: &Setting,
    nodes: &mut List<Node>,
    span: Span,
    adds: bool,
    items: Tops,
) -> Result<Tops, EmitStop>
    ensures { GivesNodes result nodes.new (ends_with adds setting.now.number setting.now.depth span items nodes.old) }
{
    if !adds {
        return Ok(items);
    }
    let none = leaf(setting, nodes, NodeKind::Prim(NONE_ENTITY), span)?;
    let mut items = items;
    items.push(none)?;
    Ok(items)
}

// The writes of the initial values to the fields, in order.
#[tactic(auto, using(crate::proofs::Wholes::behind_none))]
fn initials(
    alloc: Global,
    context: &Context,
    number: u32,
    nodes: &mut List<Node>,
    fields: &[FieldDef],
) -> Result<Tops, EmitStop>
    ensures { (rest : Roses) → LeadsOn result nodes.new (puts number rest) (puts number (spec.initials_then context.now (map field_view fields.now) rest) nodes.old) }
{
    let mut tops = Tops::new(alloc);
    for field in fields {
        tops = add_initial(alloc, context, number, nodes, field, tops)?;
    }
    Ok(tops)
}

// The same with the initial value of one more field, if it has one.
fn add_initial(
    alloc: Global,
    context: &Context,
    number: u32,
    nodes: &mut List<Node>,
    field: &FieldDef,
    tops: Tops,
) -> Result<Tops, EmitStop>
    ensures { (rest : Roses) → LeadsOn result nodes.new (puts number rest) (behind_tops tops (puts number (parts.initial_of context.now field.now.name (maybe_expr field.now.value) rest) nodes.old)) }
{
    match &field.value {
        None => Ok(tops),
        Some(value) => {
            let top = initial(alloc, context, number, nodes, &field.name, value)?;
            let mut tops = tops;
            tops.push(top)?;
            Ok(tops)
        }
    }
}

// The write of an initial value. No parameter is visible in it.
fn initial(
    alloc: Global,
    context: &Context,
    number: u32,
    nodes: &mut List<Node>,
    name: &Name,
    value: &Expr,
) -> Result<u32, EmitStop>
    ensures { GivesNodes result nodes.new (put number (spec.write_field context.now name.now.span name.now 0 (spec.expr_of context.now [] 0 (expr_view value.now)) (spec.added_this name.now 0)) nodes.old) }
{
    let mut scope = List::new(alloc);
    let setting = Setting {
        alloc,
        context,
        number,
        depth: 0,
    };
    let value = expr(&setting, &mut scope, nodes, value)?;
    write_field(&setting, nodes, name.span, name, value)
}

// These, followed by more.
fn append(first: Tops, more: &[u32]) -> Result<Tops, AllocError>
    ensures { IfOk result (λ all. all ≡ first ++ more.now) }
{
    let mut all = first;
    for x in more {
        all.push(*x)?;
    }
    Ok(all)
}

// Emits the sequence of a body whose items have been emitted, and the body.
#[tactic(auto, unfolding(crate::specs::Closing::body_closes))]
fn close_body(
    setting: &Setting,
    nodes: &mut List<Node>,
    name: Span,
    span: Span,
    items: Tops,
) -> Result<u32, EmitStop>
    ensures { GivesNodes result nodes.new (body_closes setting.now.number setting.now.depth name span items nodes.old) }
{
    let seq = close_sequence(setting, nodes, span, items)?;
    single(setting, nodes, NodeKind::Body, name, seq)
}
