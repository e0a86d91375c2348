//! The first fault of a body, in the order of the text.
ghost use Rattle.std.specs.Prelude.{◌≡◌, IfOk, OnOk, length, map, take};
ghost use Rattle.pc_tree.specs.View.{arm_view, arms_view, expr_view, exprs_view, field_view, item_view, items_view, maybe_expr, maybe_seq, method_view, other_view, seq_view, suffix_view, suffixes_view};
ghost use Rattle.pc_body_spec.specs.Bodies.{params_scope as params_visible, scope_after};
ghost use Rattle.pc_body_spec.specs.Faults as spec;
ghost use Rattle.pc_body_spec.specs.Parts as parts;
ghost use Rattle.pc_body_walks.specs.Checking.{TellsFirstBodyFault, args_faults, head_faults, suffix_faults};

use crate::checks::{
    check_consumed, check_name, check_new, check_text, check_type_name, check_written,
};
use crate::fault::BodyFault;
use crate::starts::{check_name_head, check_type_head, next_of};
use pc_resolve::{Context, Scope, enter, params_scope};
use pc_tree::{Arm, Expr, FieldDef, Item, MethodDef, MethodWord, ParamDef, Seq, Suffix};
use std::alloc::{AllocError, Global};

/// Checks the body of a method of an entity with these fields. `Err` iff it has a fault, and then the first in the
/// order of the text. The initial values of the fields are part of each constructor, and come first. Memory may run out
/// at any time.
#[tactic(auto, using(crate::proofs::Firsts::is_first_on))]
pub fn check(
    alloc: Global,
    context: &Context,
    fields: &[FieldDef],
    method: &MethodDef,
) -> Result<(), BodyFault>
    ensures { TellsFirstBodyFault result (spec.body_faults context.now (map field_view fields.now) (method_view method.now)) }
{
    match method.word {
        MethodWord::New => check_added(alloc, context, fields)?,
        MethodWord::Fun | MethodWord::Be => (),
    }
    check_body(alloc, context, method)
}

// The written body of a method, in which its parameters are visible.
fn check_body(alloc: Global, context: &Context, method: &MethodDef) -> Result<(), BodyFault>
    ensures { TellsFirstBodyFault result (parts.written_body_faults context.now (params_visible method.now.params) (maybe_seq method.now.body)) }
{
    let mut scope = param_scope(alloc, context, method.params.as_slice())?;
    body(alloc, context, &mut scope, &method.body)
}

// What is visible at the start of a body.
fn param_scope(alloc: Global, context: &Context, params: &[ParamDef]) -> Result<Scope, AllocError>
    ensures { IfOk result (λ scope. scope ≡ params_visible params.now) }
{
    let row = params_scope(alloc, params)?;
    Scope::of(alloc, context.key(), row.as_slice())
}

/// Checks the body of an added constructor of an entity with these fields, which consists of their initial values.
/// `Err` iff it has a fault, and then the first in the order of the text. Memory may run out at any time.
#[tactic(auto, using(crate::proofs::Firsts::is_first_on))]
pub fn check_added(alloc: Global, context: &Context, fields: &[FieldDef]) -> Result<(), BodyFault>
    ensures { TellsFirstBodyFault result (spec.initial_faults context.now (map field_view fields.now)) }
{
    for field in fields {
        initial_value(alloc, context, &field.value)?;
    }
    Ok(())
}

// The initial value of a field, in which no parameter is visible.
fn initial_value(alloc: Global, context: &Context, value: &Option<Expr>) -> Result<(), BodyFault>
    ensures { TellsFirstBodyFault result (parts.value_faults context.now (maybe_expr value.now)) }
{
    match value {
        None => Ok(()),
        Some(value) => {
            let mut scope = Scope::new(alloc, context.key());
            expr(alloc, context, &mut scope, value)
        }
    }
}

// The body of a method, if one is written.
fn body(
    alloc: Global,
    context: &Context,
    scope: &mut Scope,
    body: &Option<Seq>,
) -> Result<(), BodyFault>
    ensures { TellsFirstBodyFault result (parts.written_body_faults context.now scope.old (maybe_seq body.now)) }
{
    match body {
        None => Ok(()),
        Some(body) => sequence(alloc, context, scope, body),
    }
}

#[cycle(walk)]
#[tactic(auto, using(crate::proofs::Firsts::is_first_on))]
fn expr(
    alloc: Global,
    context: &Context,
    scope: &mut Scope,
    expression: &Expr,
) -> Result<(), BodyFault>
    ensures tells { TellsFirstBodyFault result (spec.faults_of context.now scope.old (expr_view expression.now)) }
    ensures scope { OnOk result (scope.new ≡ scope.old) }
{
    match expression {
        Expr::Number { .. } | Expr::Truth { .. } | Expr::This(_) => Ok(()),
        Expr::Text { bytes, span } => check_text(bytes.as_slice(), *span),
        Expr::Name(name) => check_name(context, scope, name),
        Expr::TypeName(name) => check_type_name(context, name),
        Expr::Consume { name, .. } => check_consumed(scope, name),
        Expr::Not { inner, .. } => expr(alloc, context, scope, inner),
        Expr::Infix { terms, .. } => exprs(alloc, context, scope, terms.as_slice()),
        Expr::Chain { head, suffixes, .. } => {
            let suffixes = suffixes.as_slice();
            chain_head(alloc, context, scope, head, suffixes)?;
            suffix_list(alloc, context, scope, suffixes)
        }
        Expr::Group { body, .. } | Expr::Recover { body, .. } => {
            sequence(alloc, context, scope, body)
        }
        Expr::If { arms, other, .. } => {
            arm_list(alloc, context, scope, arms.as_slice())?;
            otherwise(alloc, context, scope, other)
        }
        Expr::While { cond, body, .. } => {
            sequence(alloc, context, scope, cond)?;
            sequence(alloc, context, scope, body)
        }
        Expr::Assign { left, right, .. } => {
            expr(alloc, context, scope, left)?;
            expr(alloc, context, scope, right)
        }
    }
}

// The head of a chain, which may have a meaning only with what follows it.
#[cycle(walk)]
fn chain_head(
    alloc: Global,
    context: &Context,
    scope: &mut Scope,
    expression: &Expr,
    suffixes: &[Suffix],
) -> Result<(), BodyFault>
    ensures tells { TellsFirstBodyFault result (head_faults context.now scope.old (expr_view expression.now) (suffixes_view suffixes.now)) }
    ensures scope { OnOk result (scope.new ≡ scope.old) }
{
    match expression {
        Expr::Name(name) => check_name_head(context, scope, name, next_of(suffixes)),
        Expr::TypeName(name) => check_type_head(context, name, suffixes),
        Expr::Number { .. }
        | Expr::Truth { .. }
        | Expr::Text { .. }
        | Expr::This(_)
        | Expr::Consume { .. }
        | Expr::Not { .. }
        | Expr::Infix { .. }
        | Expr::Chain { .. }
        | Expr::Group { .. }
        | Expr::If { .. }
        | Expr::While { .. }
        | Expr::Recover { .. }
        | Expr::Assign { .. } => expr(alloc, context, scope, expression),
    }
}

#[cycle(walk)]
#[tactic(auto, using(crate::proofs::Firsts::is_first_on))]
fn exprs(alloc: Global, context: &Context, scope: &mut Scope, xs: &[Expr]) -> Result<(), BodyFault>
    ensures tells { TellsFirstBodyFault result (spec.exprs_faults context.now scope.old (exprs_view xs.now)) }
    ensures scope { OnOk result (scope.new ≡ scope.old) }
{
    for x in xs {
        expr(alloc, context, scope, x)?;
    }
    Ok(())
}

// The arguments among the suffixes of a chain.
#[cycle(walk)]
#[tactic(auto, using(crate::proofs::Firsts::is_first_on))]
fn suffix_list(
    alloc: Global,
    context: &Context,
    scope: &mut Scope,
    xs: &[Suffix],
) -> Result<(), BodyFault>
    ensures tells { TellsFirstBodyFault result (args_faults context.now scope.old (suffixes_view xs.now)) }
    ensures scope { OnOk result (scope.new ≡ scope.old) }
{
    for x in xs {
        suffix(alloc, context, scope, x)?;
    }
    Ok(())
}

#[cycle(walk)]
fn suffix(
    alloc: Global,
    context: &Context,
    scope: &mut Scope,
    part: &Suffix,
) -> Result<(), BodyFault>
    ensures tells { TellsFirstBodyFault result (suffix_faults context.now scope.old (suffix_view part.now)) }
    ensures scope { OnOk result (scope.new ≡ scope.old) }
{
    match part {
        Suffix::Dot(_) => Ok(()),
        Suffix::Args { args, .. } => exprs(alloc, context, scope, args.as_slice()),
    }
}

#[cycle(walk)]
#[tactic(auto, using(crate::proofs::Firsts::is_first_on))]
fn arm_list(
    alloc: Global,
    context: &Context,
    scope: &mut Scope,
    xs: &[Arm],
) -> Result<(), BodyFault>
    ensures tells { TellsFirstBodyFault result (spec.arms_faults context.now scope.old (arms_view xs.now)) }
    ensures scope { OnOk result (scope.new ≡ scope.old) }
{
    for x in xs {
        arm(alloc, context, scope, x)?;
    }
    Ok(())
}

#[cycle(walk)]
#[tactic(auto, using(crate::proofs::Firsts::is_first_on))]
fn arm(alloc: Global, context: &Context, scope: &mut Scope, part: &Arm) -> Result<(), BodyFault>
    ensures tells { TellsFirstBodyFault result (spec.arm_faults context.now scope.old (arm_view part.now)) }
    ensures scope { OnOk result (scope.new ≡ scope.old) }
{
    sequence(alloc, context, scope, &part.cond)?;
    sequence(alloc, context, scope, &part.body)
}

#[cycle(walk)]
fn otherwise(
    alloc: Global,
    context: &Context,
    scope: &mut Scope,
    other: &Option<Box<Seq>>,
) -> Result<(), BodyFault>
    ensures tells { TellsFirstBodyFault result (spec.other_faults context.now scope.old (other_view other.now)) }
    ensures scope { OnOk result (scope.new ≡ scope.old) }
{
    match other {
        Some(body) => sequence(alloc, context, scope, body),
        None => Ok(()),
    }
}

// The locals of a sequence are visible up to its end.
#[cycle(walk)]
fn sequence(alloc: Global, context: &Context, scope: &mut Scope, seq: &Seq) -> Result<(), BodyFault>
    ensures tells { TellsFirstBodyFault result (spec.seq_faults context.now scope.old (seq_view seq.now)) }
    ensures scope { OnOk result (scope.new ≡ scope.old) }
{
    let before = scope.len();
    items(alloc, context, scope, seq.items.as_slice())?;
    scope.truncate(before);
    Ok(())
}

#[cycle(walk)]
#[tactic(auto, using(crate::proofs::Firsts::is_first_on))]
fn items(alloc: Global, context: &Context, scope: &mut Scope, xs: &[Item]) -> Result<(), BodyFault>
    ensures tells { TellsFirstBodyFault result (spec.items_faults context.now scope.old (items_view xs.now)) }
    ensures scope { OnOk result (take (length scope.old) scope.new ≡ scope.old) }
{
    for x in xs {
        item(alloc, context, scope, x)?;
    }
    Ok(())
}

#[cycle(walk)]
#[tactic(auto, using(crate::proofs::Firsts::is_first_on))]
fn item(alloc: Global, context: &Context, scope: &mut Scope, part: &Item) -> Result<(), BodyFault>
    ensures tells { TellsFirstBodyFault result (spec.item_faults context.now scope.old (item_view part.now)) }
    ensures scope { OnOk result (scope.new ≡ scope_after context.now scope.old (item_view part.now)) }
{
    match part {
        Item::Local {
            name,
            ty,
            value,
            ..
        } => {
            check_new(context, scope, name)?;
            check_written(context, ty)?;
            expr(alloc, context, scope, value)?;
            let slot = context.slot_at(name.span.start);
            enter(alloc, scope, name.text.as_slice(), slot)?;
            Ok(())
        }
        Item::Plain(e) => expr(alloc, context, scope, e),
    }
}
