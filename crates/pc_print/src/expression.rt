//! Expressions, items and sequences, each appended to a text, all on one line.
ghost use Rattle.std.specs.Prelude.{◌≡◌, ◌++◌, ◌∷◌, [], OnOk, codes, if◌then◌else◌};
ghost use Rattle.pc_print.specs.Parts.{all_escaped};
ghost use Rattle.pc_print.specs.Parts as parts;
ghost use Rattle.pc_print.specs.Printing as text;
ghost use Rattle.pc_token.specs.Words.{word_text};
ghost use Rattle.pc_grammar.specs.Spells.{truth_word};
ghost use Rattle.pc_tree.specs.View.{expr_view, item_view, suffix_view, arm_view, seq_view, exprs_view, suffixes_view, arms_view, items_view, other_view};

use crate::leaves::{
    op_text, push_between, push_cap, push_escaped, push_local, push_number, push_typed,
};
use pc_tree::{Arm, Expr, Item, Name, Op, Seq, Suffix};
use std::alloc::{AllocError, Global};

// The bytes of a text literal's value, as they are printed.
fn push_value(out: &mut Vec<u8>, bytes: &[u8]) -> Result<(), AllocError>
    ensures { OnOk result (out.new.items ≡ out.old.items ++ all_escaped bytes.now) }
{
    for b in bytes {
        push_escaped(out, *b)?;
    }
    Ok(())
}

// A text literal.
fn push_text(out: &mut Vec<u8>, bytes: &[u8]) -> Result<(), AllocError>
    ensures { OnOk result (out.new.items ≡ out.old.items ++ 34 ∷ (all_escaped bytes.now ++ 34 ∷ [])) }
{
    out.extend_from_slice(b"\"")?;
    push_value(out, bytes)?;
    out.extend_from_slice(b"\"")
}

// `true` or `false`.
fn push_truth(out: &mut Vec<u8>, value: bool) -> Result<(), AllocError>
    ensures { OnOk result (out.new.items ≡ out.old.items ++ word_text (truth_word value)) }
{
    if value {
        out.extend_from_slice(b"true")
    } else {
        out.extend_from_slice(b"false")
    }
}

// `consume x`.
fn push_consume(out: &mut Vec<u8>, name: &Name) -> Result<(), AllocError>
    ensures { OnOk result (out.new.items ≡ out.old.items ++ (codes "consume " ++ name.now.text)) }
{
    out.extend_from_slice(b"consume ")?;
    out.extend_from_slice(name.text.as_slice())
}

// An operator between spaces, unless the first operand comes next.
fn push_op(out: &mut Vec<u8>, first: bool, op: Op) -> Result<(), AllocError>
    ensures { OnOk result (out.new.items ≡ out.old.items ++ (if first then [] else parts.between_terms op)) }
{
    if first {
        Ok(())
    } else {
        out.extend_from_slice(b" ")?;
        out.extend_from_slice(op_text(op))?;
        out.extend_from_slice(b" ")
    }
}

// The keyword of an arm.
fn push_head(out: &mut Vec<u8>, first: bool) -> Result<(), AllocError>
    ensures { OnOk result (out.new.items ≡ out.old.items ++ (if first then codes "if " else codes " elseif ")) }
{
    if first {
        out.extend_from_slice(b"if ")
    } else {
        out.extend_from_slice(b" elseif ")
    }
}

/// An expression.
#[cycle(print)]
pub fn push_expr(alloc: Global, out: &mut Vec<u8>, expression: &Expr) -> Result<(), AllocError>
    ensures { OnOk result (out.new.items ≡ out.old.items ++ text.printed_expr (expr_view expression.now)) }
{
    match expression {
        Expr::Number { value, .. } => push_number(alloc, out, *value),
        Expr::Truth { value, .. } => push_truth(out, *value),
        Expr::Text { bytes, .. } => push_text(out, bytes.as_slice()),
        Expr::Name(name) | Expr::TypeName(name) => out.extend_from_slice(name.text.as_slice()),
        Expr::This(_) => out.extend_from_slice(b"this"),
        Expr::Consume { name, .. } => push_consume(out, name),
        Expr::Not { inner, .. } => {
            out.extend_from_slice(b"not ")?;
            push_expr(alloc, out, inner)
        }
        Expr::Infix { op, terms, .. } => push_terms(alloc, out, *op, terms.as_slice()),
        Expr::Chain { head, suffixes, .. } => {
            push_expr(alloc, out, head)?;
            push_suffixes(alloc, out, suffixes.as_slice())
        }
        Expr::Group { body, .. } => push_enclosed(alloc, out, b"(", body, b")"),
        Expr::If { arms, other, .. } => {
            push_arms(alloc, out, arms.as_slice())?;
            push_other(alloc, out, other)
        }
        Expr::While { cond, body, .. } => {
            push_enclosed(alloc, out, b"while ", cond, b" do ")?;
            push_enclosed(alloc, out, b"", body, b" end")
        }
        Expr::Recover { cap, body, .. } => {
            out.extend_from_slice(b"recover")?;
            push_cap(out, *cap)?;
            push_enclosed(alloc, out, b" ", body, b" end")
        }
        Expr::Assign { left, right, .. } => {
            push_expr(alloc, out, left)?;
            out.extend_from_slice(b" = ")?;
            push_expr(alloc, out, right)
        }
    }
}

// A sequence with what is printed before and after it.
#[cycle(print)]
fn push_enclosed(
    alloc: Global,
    out: &mut Vec<u8>,
    before: &[u8],
    seq: &Seq,
    behind: &[u8],
) -> Result<(), AllocError>
    ensures { OnOk result (out.new.items ≡ out.old.items ++ (before.now ++ (text.printed_seq (seq_view seq.now) ++ behind.now))) }
{
    out.extend_from_slice(before)?;
    push_items(alloc, out, seq.items.as_slice())?;
    out.extend_from_slice(behind)
}

#[cycle(print)]
fn push_terms(alloc: Global, out: &mut Vec<u8>, op: Op, xs: &[Expr]) -> Result<(), AllocError>
    ensures { OnOk result (out.new.items ≡ out.old.items ++ parts.printed_terms (exprs_view xs.now) op) }
{
    let mut first = true;
    for x in xs {
        push_op(out, first, op)?;
        push_expr(alloc, out, x)?;
        first = false;
    }
    Ok(())
}

#[cycle(print)]
fn push_suffixes(alloc: Global, out: &mut Vec<u8>, xs: &[Suffix]) -> Result<(), AllocError>
    ensures { OnOk result (out.new.items ≡ out.old.items ++ text.printed_suffixes (suffixes_view xs.now)) }
{
    for x in xs {
        push_suffix(alloc, out, x)?;
    }
    Ok(())
}

#[cycle(print)]
fn push_suffix(alloc: Global, out: &mut Vec<u8>, suffix: &Suffix) -> Result<(), AllocError>
    ensures { OnOk result (out.new.items ≡ out.old.items ++ text.printed_suffix (suffix_view suffix.now)) }
{
    match suffix {
        Suffix::Dot(name) => {
            out.extend_from_slice(b".")?;
            out.extend_from_slice(name.text.as_slice())
        }
        Suffix::Args { args, .. } => {
            out.extend_from_slice(b"(")?;
            push_args(alloc, out, args.as_slice())?;
            out.extend_from_slice(b")")
        }
    }
}

#[cycle(print)]
fn push_args(alloc: Global, out: &mut Vec<u8>, xs: &[Expr]) -> Result<(), AllocError>
    ensures { OnOk result (out.new.items ≡ out.old.items ++ parts.printed_args (exprs_view xs.now)) }
{
    let mut first = true;
    for x in xs {
        push_between(out, first, b", ")?;
        push_expr(alloc, out, x)?;
        first = false;
    }
    Ok(())
}

#[cycle(print)]
fn push_arms(alloc: Global, out: &mut Vec<u8>, xs: &[Arm]) -> Result<(), AllocError>
    ensures { OnOk result (out.new.items ≡ out.old.items ++ parts.all_arms (arms_view xs.now)) }
{
    let mut first = true;
    for x in xs {
        push_head(out, first)?;
        push_arm(alloc, out, x)?;
        first = false;
    }
    Ok(())
}

#[cycle(print)]
fn push_arm(alloc: Global, out: &mut Vec<u8>, arm: &Arm) -> Result<(), AllocError>
    ensures { OnOk result (out.new.items ≡ out.old.items ++ text.printed_arm (arm_view arm.now)) }
{
    push_enclosed(alloc, out, b"", &arm.cond, b" then ")?;
    push_enclosed(alloc, out, b"", &arm.body, b"")
}

// The end of an `if`, after its arms.
#[cycle(print)]
fn push_other(alloc: Global, out: &mut Vec<u8>, other: &Option<Box<Seq>>) -> Result<(), AllocError>
    ensures { OnOk result (out.new.items ≡ out.old.items ++ (text.printed_other (other_view other.now) ++ codes " end")) }
{
    match other {
        Some(seq) => push_enclosed(alloc, out, b" else ", seq, b" end"),
        None => out.extend_from_slice(b" end"),
    }
}

#[cycle(print)]
fn push_items(alloc: Global, out: &mut Vec<u8>, xs: &[Item]) -> Result<(), AllocError>
    ensures { OnOk result (out.new.items ≡ out.old.items ++ parts.all_items (items_view xs.now)) }
{
    let mut first = true;
    for x in xs {
        push_between(out, first, b"; ")?;
        push_item(alloc, out, x)?;
        first = false;
    }
    Ok(())
}

/// An item of a sequence.
#[cycle(print)]
pub fn push_item(alloc: Global, out: &mut Vec<u8>, item: &Item) -> Result<(), AllocError>
    ensures { OnOk result (out.new.items ≡ out.old.items ++ text.printed_item (item_view item.now)) }
{
    match item {
        Item::Local {
            fixed,
            name,
            ty,
            value,
            ..
        } => {
            push_local(out, *fixed)?;
            out.extend_from_slice(name.text.as_slice())?;
            push_typed(out, ty)?;
            out.extend_from_slice(b" = ")?;
            push_expr(alloc, out, value)
        }
        Item::Plain(e) => push_expr(alloc, out, e),
    }
}
