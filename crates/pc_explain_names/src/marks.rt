//! What is found on the way to a place in the tree of a method's body: the locals that are visible there, and how the
//! name there is used.
ghost use Rattle.std.specs.Prelude.{◌≡◌, ◌++◌, ◌∷◌, [], OnOk};
ghost use Rattle.pc_explain_names.specs.Marks as spec;
ghost use Rattle.pc_tree.specs.View.{arm_view, arms_view, expr_view, exprs_view, item_view, items_view, other_view, seq_view, suffix_view, suffixes_view};

use pc_base::Span;
use pc_tree::{Arm, Expr, Item, Seq, Suffix};
use std::alloc::AllocError;

/// What is found on the way to a place.
#[derive(Clone, Copy, Debug, PartialEq, Eq)]
pub enum Mark {
    /// A local that is visible at the place, with the place of its name.
    Local(Span),
    /// The place has a name on its own, or before arguments.
    Bare,
    /// It has the name after `consume`.
    Consumed,
    /// It has a type name in an expression.
    Type,
    /// It has the name after a type's name and a dot, with the place of the type's name.
    Constructor(Span),
}

// Whether the byte is in the span.
fn holds(span: Span, at: u32) -> bool
    ensures { result ≡ spec.holds span at }
{
    span.start <= at && at < span.end
}

// Appends a mark, if it was met.
fn push_when(out: &mut Vec<Mark>, met: bool, mark: Mark) -> Result<(), AllocError>
    ensures { OnOk result (out.new.items ≡ out.old.items ++ spec.marks_if met (mark ∷ [])) }
{
    if met {
        out.push(mark)?;
    }
    Ok(())
}

// The place of the type's name, if an expression is a type.
fn type_in(head: &Expr) -> Option<Span>
    ensures { result ≡ spec.type_name_in (expr_view head.now) }
{
    match head {
        Expr::TypeName(name) => Some(name.span),
        Expr::Number { .. }
        | Expr::Truth { .. }
        | Expr::Text { .. }
        | Expr::Name(_)
        | Expr::This(_)
        | Expr::Consume { .. }
        | Expr::Not { .. }
        | Expr::Infix { .. }
        | Expr::Chain { .. }
        | Expr::Group { .. }
        | Expr::If { .. }
        | Expr::While { .. }
        | Expr::Recover { .. }
        | Expr::Assign { .. } => None,
    }
}

// Appends the mark of a name after a type's name and a dot.
fn push_constructor(
    out: &mut Vec<Mark>,
    at: u32,
    head: Option<Span>,
    name: Span,
) -> Result<(), AllocError>
    ensures { OnOk result (out.new.items ≡ out.old.items ++ spec.constructor_mark at head name) }
{
    match head {
        Some(head) => push_when(out, name.start == at, Mark::Constructor(head)),
        None => Ok(()),
    }
}

/// Appends what is found in an expression.
#[cycle(met)]
pub(crate) fn push_expr(out: &mut Vec<Mark>, at: u32, expression: &Expr) -> Result<(), AllocError>
    ensures { OnOk result (out.new.items ≡ out.old.items ++ spec.expr_marks at (expr_view expression.now)) }
{
    match expression {
        Expr::Number { .. } | Expr::Truth { .. } | Expr::Text { .. } | Expr::This(_) => Ok(()),
        Expr::Name(name) => push_when(out, name.span.start == at, Mark::Bare),
        Expr::TypeName(name) => push_when(out, name.span.start == at, Mark::Type),
        Expr::Consume { name, .. } => push_when(out, name.span.start == at, Mark::Consumed),
        Expr::Not { inner, .. } => push_expr(out, at, inner),
        Expr::Infix { terms, .. } => push_exprs(out, at, terms.as_slice()),
        Expr::Chain { head, suffixes, .. } => {
            push_expr(out, at, head)?;
            push_suffixes(out, at, type_in(head), suffixes.as_slice())
        }
        Expr::Group { body, .. } => push_seq(out, at, body),
        Expr::If { arms, other, .. } => {
            push_arms(out, at, arms.as_slice())?;
            push_other(out, at, other)
        }
        Expr::While { cond, body, .. } => {
            push_seq(out, at, cond)?;
            push_seq(out, at, body)
        }
        Expr::Recover { body, .. } => push_seq(out, at, body),
        Expr::Assign { left, right, .. } => {
            push_expr(out, at, left)?;
            push_expr(out, at, right)
        }
    }
}

#[cycle(met)]
fn push_exprs(out: &mut Vec<Mark>, at: u32, xs: &[Expr]) -> Result<(), AllocError>
    ensures { OnOk result (out.new.items ≡ out.old.items ++ spec.exprs_marks at (exprs_view xs.now)) }
{
    for x in xs {
        push_expr(out, at, x)?;
    }
    Ok(())
}

#[cycle(met)]
fn push_suffixes(
    out: &mut Vec<Mark>,
    at: u32,
    head: Option<Span>,
    xs: &[Suffix],
) -> Result<(), AllocError>
    ensures { OnOk result (out.new.items ≡ out.old.items ++ spec.suffixes_marks at head (suffixes_view xs.now)) }
{
    for x in xs {
        push_suffix(out, at, head, x)?;
    }
    Ok(())
}

#[cycle(met)]
fn push_suffix(
    out: &mut Vec<Mark>,
    at: u32,
    head: Option<Span>,
    suffix: &Suffix,
) -> Result<(), AllocError>
    ensures { OnOk result (out.new.items ≡ out.old.items ++ spec.suffix_marks at head (suffix_view suffix.now)) }
{
    match suffix {
        Suffix::Dot(name) => push_constructor(out, at, head, name.span),
        Suffix::Args { args, .. } => push_exprs(out, at, args.as_slice()),
    }
}

#[cycle(met)]
fn push_arms(out: &mut Vec<Mark>, at: u32, xs: &[Arm]) -> Result<(), AllocError>
    ensures { OnOk result (out.new.items ≡ out.old.items ++ spec.arms_marks at (arms_view xs.now)) }
{
    for x in xs {
        push_arm(out, at, x)?;
    }
    Ok(())
}

#[cycle(met)]
fn push_arm(out: &mut Vec<Mark>, at: u32, arm: &Arm) -> Result<(), AllocError>
    ensures { OnOk result (out.new.items ≡ out.old.items ++ spec.arm_marks at (arm_view arm.now)) }
{
    push_seq(out, at, &arm.cond)?;
    push_seq(out, at, &arm.body)
}

#[cycle(met)]
fn push_other(out: &mut Vec<Mark>, at: u32, other: &Option<Box<Seq>>) -> Result<(), AllocError>
    ensures { OnOk result (out.new.items ≡ out.old.items ++ spec.other_marks at (other_view other.now)) }
{
    match other {
        Some(seq) => push_seq(out, at, seq),
        None => Ok(()),
    }
}

/// Appends what is found in a sequence.
#[cycle(met)]
pub(crate) fn push_seq(out: &mut Vec<Mark>, at: u32, seq: &Seq) -> Result<(), AllocError>
    ensures { OnOk result (out.new.items ≡ out.old.items ++ spec.seq_marks at (seq_view seq.now)) }
{
    if holds(seq.span, at) {
        push_items(out, at, seq.items.as_slice())
    } else {
        Ok(())
    }
}

#[cycle(met)]
fn push_items(out: &mut Vec<Mark>, at: u32, xs: &[Item]) -> Result<(), AllocError>
    ensures { OnOk result (out.new.items ≡ out.old.items ++ spec.items_marks at (items_view xs.now)) }
{
    for x in xs {
        push_item(out, at, x)?;
    }
    Ok(())
}

#[cycle(met)]
fn push_item(out: &mut Vec<Mark>, at: u32, item: &Item) -> Result<(), AllocError>
    ensures { OnOk result (out.new.items ≡ out.old.items ++ spec.item_marks at (item_view item.now)) }
{
    match item {
        Item::Local {
            name,
            value,
            span,
            ..
        } => {
            push_expr(out, at, value)?;
            push_when(out, span.end <= at, Mark::Local(name.span))
        }
        Item::Plain(expression) => push_expr(out, at, expression),
    }
}

// Appends the place of a local's name.
fn push_local_in(out: &mut Vec<Span>, mark: Mark) -> Result<(), AllocError>
    ensures { OnOk result (out.new.items ≡ out.old.items ++ spec.local_in mark) }
{
    match mark {
        Mark::Local(span) => {
            out.push(span)?;
            Ok(())
        }
        Mark::Bare | Mark::Consumed | Mark::Type | Mark::Constructor(_) => Ok(()),
    }
}

/// Appends the places of the locals' names.
pub(crate) fn push_locals(out: &mut Vec<Span>, marks: &[Mark]) -> Result<(), AllocError>
    ensures { OnOk result (out.new.items ≡ out.old.items ++ spec.locals marks.now) }
{
    'marks: for mark in marks {
        push_local_in(out, *mark)?;
    }
    Ok(())
}

/// How the name at the place is used: the first mark that is not a local.
pub(crate) fn use_in(marks: &[Mark]) -> Option<Mark>
    ensures { result ≡ spec.use_in marks.now }
{
    for mark in marks {
        match mark {
            Mark::Local(_) => {}
            Mark::Bare | Mark::Consumed | Mark::Type | Mark::Constructor(_) => {
                return Some(*mark);
            }
        }
    }
    None
}
