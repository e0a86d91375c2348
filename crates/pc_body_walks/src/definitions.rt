//! The locals of a body, in the order in which their names are in the text.
ghost use Rattle.std.specs.Prelude.{◌≡◌, ◌∷◌, [], ◌++◌, IfOk, OnOk, map};
ghost use Rattle.pc_tree.specs.View.{arm_view, arms_view, expr_view, exprs_view, field_view, item_view, items_view, maybe_expr, maybe_seq, method_view, other_view, seq_view, suffix_view, suffixes_view};
ghost use Rattle.pc_body_spec.specs.Slots as spec;
ghost use Rattle.pc_body_spec.specs.Parts as parts;

use crate::local::Local;
use pc_base::List;
use pc_tree::{Arm, Expr, FieldDef, Item, MethodDef, MethodWord, Name, Seq, Suffix, TypeRef};
use std::alloc::{AllocError, Global};

/// The locals of a method of an entity with these fields, in the order of the text. In each constructor those of the
/// initial values come before its own.
pub fn locals(
    alloc: Global,
    fields: &[FieldDef],
    method: &MethodDef,
) -> Result<List<Local>, AllocError>
    ensures { IfOk result (λ locals. locals ≡ spec.method_locals (map field_view fields.now) (method_view method.now)) }
{
    let mut locals = List::new(alloc);
    add_locals(alloc, &mut locals, fields, method)?;
    Ok(locals)
}

// Appends these locals.
fn add_locals(
    alloc: Global,
    locals: &mut List<Local>,
    fields: &[FieldDef],
    method: &MethodDef,
) -> Result<(), AllocError>
    ensures { OnOk result (locals.new ≡ locals.old ++ spec.method_locals (map field_view fields.now) (method_view method.now)) }
{
    match method.word {
        MethodWord::New => initial_values(alloc, locals, fields)?,
        MethodWord::Fun | MethodWord::Be => (),
    }
    body(alloc, locals, &method.body)
}

/// The locals of an added constructor: those of the initial values of the fields.
pub fn added_locals(alloc: Global, fields: &[FieldDef]) -> Result<List<Local>, AllocError>
    ensures { IfOk result (λ locals. locals ≡ spec.initial_locals (map field_view fields.now)) }
{
    let mut locals = List::new(alloc);
    initial_values(alloc, &mut locals, fields)?;
    Ok(locals)
}

// Appends the locals of the initial values.
fn initial_values(
    alloc: Global,
    locals: &mut List<Local>,
    fields: &[FieldDef],
) -> Result<(), AllocError>
    ensures { OnOk result (locals.new ≡ locals.old ++ spec.initial_locals (map field_view fields.now)) }
{
    for field in fields {
        initial_value(alloc, locals, &field.value)?;
    }
    Ok(())
}

fn initial_value(
    alloc: Global,
    locals: &mut List<Local>,
    value: &Option<Expr>,
) -> Result<(), AllocError>
    ensures { OnOk result (locals.new ≡ locals.old ++ parts.value_locals (maybe_expr value.now)) }
{
    match value {
        None => Ok(()),
        Some(value) => expr(alloc, locals, 0, value),
    }
}

// Those of a body, if one is written.
fn body(alloc: Global, locals: &mut List<Local>, body: &Option<Seq>) -> Result<(), AllocError>
    ensures { OnOk result (locals.new ≡ locals.old ++ parts.body_locals (maybe_seq body.now)) }
{
    match body {
        None => Ok(()),
        Some(body) => sequence(alloc, locals, 0, body),
    }
}

#[cycle(walk)]
fn expr(
    alloc: Global,
    locals: &mut List<Local>,
    depth: u32,
    expression: &Expr,
) -> Result<(), AllocError>
    ensures { OnOk result (locals.new ≡ locals.old ++ spec.locals_of depth (expr_view expression.now)) }
{
    match expression {
        Expr::Number { .. }
        | Expr::Truth { .. }
        | Expr::Text { .. }
        | Expr::Name(_)
        | Expr::TypeName(_)
        | Expr::This(_)
        | Expr::Consume { .. } => Ok(()),
        Expr::Not { inner, .. } => expr(alloc, locals, depth, inner),
        Expr::Infix { terms, .. } => exprs(alloc, locals, depth, terms.as_slice()),
        Expr::Chain { head, suffixes, .. } => {
            expr(alloc, locals, depth, head)?;
            suffix_list(alloc, locals, depth, suffixes.as_slice())
        }
        Expr::Group { body, .. } => sequence(alloc, locals, depth, body),
        Expr::If { arms, other, .. } => {
            arm_list(alloc, locals, depth, arms.as_slice())?;
            otherwise(alloc, locals, depth, other)
        }
        Expr::While { cond, body, .. } => {
            sequence(alloc, locals, depth, cond)?;
            sequence(alloc, locals, depth, body)
        }
        Expr::Recover { body, .. } => sequence(alloc, locals, depth.saturating_add(1), body),
        Expr::Assign { left, right, .. } => {
            expr(alloc, locals, depth, left)?;
            expr(alloc, locals, depth, right)
        }
    }
}

#[cycle(walk)]
fn exprs(alloc: Global, locals: &mut List<Local>, depth: u32, xs: &[Expr]) -> Result<(), AllocError>
    ensures { OnOk result (locals.new ≡ locals.old ++ spec.exprs_locals depth (exprs_view xs.now)) }
{
    for x in xs {
        expr(alloc, locals, depth, x)?;
    }
    Ok(())
}

#[cycle(walk)]
fn suffix_list(
    alloc: Global,
    locals: &mut List<Local>,
    depth: u32,
    xs: &[Suffix],
) -> Result<(), AllocError>
    ensures { OnOk result (locals.new ≡ locals.old ++ spec.suffixes_locals depth (suffixes_view xs.now)) }
{
    for x in xs {
        suffix(alloc, locals, depth, x)?;
    }
    Ok(())
}

#[cycle(walk)]
fn suffix(
    alloc: Global,
    locals: &mut List<Local>,
    depth: u32,
    part: &Suffix,
) -> Result<(), AllocError>
    ensures { OnOk result (locals.new ≡ locals.old ++ spec.suffix_locals depth (suffix_view part.now)) }
{
    match part {
        Suffix::Dot(_) => Ok(()),
        Suffix::Args { args, .. } => exprs(alloc, locals, depth, args.as_slice()),
    }
}

#[cycle(walk)]
fn arm_list(
    alloc: Global,
    locals: &mut List<Local>,
    depth: u32,
    xs: &[Arm],
) -> Result<(), AllocError>
    ensures { OnOk result (locals.new ≡ locals.old ++ spec.arms_locals depth (arms_view xs.now)) }
{
    for x in xs {
        arm(alloc, locals, depth, x)?;
    }
    Ok(())
}

#[cycle(walk)]
fn arm(alloc: Global, locals: &mut List<Local>, depth: u32, part: &Arm) -> Result<(), AllocError>
    ensures { OnOk result (locals.new ≡ locals.old ++ spec.arm_locals depth (arm_view part.now)) }
{
    sequence(alloc, locals, depth, &part.cond)?;
    sequence(alloc, locals, depth, &part.body)
}

#[cycle(walk)]
fn otherwise(
    alloc: Global,
    locals: &mut List<Local>,
    depth: u32,
    other: &Option<Box<Seq>>,
) -> Result<(), AllocError>
    ensures { OnOk result (locals.new ≡ locals.old ++ spec.other_locals depth (other_view other.now)) }
{
    match other {
        Some(body) => sequence(alloc, locals, depth, body),
        None => Ok(()),
    }
}

#[cycle(walk)]
fn sequence(
    alloc: Global,
    locals: &mut List<Local>,
    depth: u32,
    seq: &Seq,
) -> Result<(), AllocError>
    ensures { OnOk result (locals.new ≡ locals.old ++ spec.seq_locals depth (seq_view seq.now)) }
{
    items(alloc, locals, depth, seq.items.as_slice())
}

#[cycle(walk)]
fn items(alloc: Global, locals: &mut List<Local>, depth: u32, xs: &[Item]) -> Result<(), AllocError>
    ensures { OnOk result (locals.new ≡ locals.old ++ spec.items_locals depth (items_view xs.now)) }
{
    for x in xs {
        item(alloc, locals, depth, x)?;
    }
    Ok(())
}

#[cycle(walk)]
fn item(alloc: Global, locals: &mut List<Local>, depth: u32, part: &Item) -> Result<(), AllocError>
    ensures { OnOk result (locals.new ≡ locals.old ++ spec.item_locals depth (item_view part.now)) }
{
    match part {
        Item::Local {
            fixed,
            name,
            ty,
            value,
            ..
        } => {
            add_local(alloc, locals, *fixed, name, ty, depth)?;
            expr(alloc, locals, depth, value)
        }
        Item::Plain(e) => expr(alloc, locals, depth, e),
    }
}

// Appends a copy of what is written for a local.
fn add_local(
    alloc: Global,
    locals: &mut List<Local>,
    fixed: bool,
    name: &Name,
    ty: &Option<TypeRef>,
    depth: u32,
) -> Result<(), AllocError>
    ensures { OnOk result (locals.new ≡ locals.old ++ record { fixed = fixed; name = name.now; ty = ty.now; depth = depth } ∷ []) }
{
    let local = Local::copy(alloc, fixed, name, ty, depth)?;
    locals.push(local)
}
