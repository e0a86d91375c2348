//! Fields and methods, each appended to a text after the end of a line.
ghost use Rattle.std.specs.Prelude.{◌≡◌, ◌++◌, ◌∷◌, map, OnOk};
ghost use Rattle.pc_print.specs.Parts as parts;
ghost use Rattle.pc_print.specs.Printing as text;
ghost use Rattle.pc_token.specs.Words.{word_text};
ghost use Rattle.pc_grammar.specs.Spells.{method_word};
ghost use Rattle.pc_tree.specs.View.{items_view, seq_view, maybe_expr, maybe_seq, field_view, method_view};

use crate::expression::{push_expr, push_item};
use crate::leaves::{push_between, push_cap, push_local, push_type, push_typed};
use pc_tree::{Expr, FieldDef, Item, MethodDef, MethodWord, ParamDef, Seq};
use std::alloc::{AllocError, Global};

// What follows a field's type, if an initial value is written.
fn push_initial(alloc: Global, out: &mut Vec<u8>, value: &Option<Expr>) -> Result<(), AllocError>
    ensures { OnOk result (out.new.items ≡ out.old.items ++ parts.printed_value (maybe_expr value.now)) }
{
    match value {
        Some(e) => {
            out.extend_from_slice(b" = ")?;
            push_expr(alloc, out, e)
        }
        None => Ok(()),
    }
}

fn push_field(alloc: Global, out: &mut Vec<u8>, field: &FieldDef) -> Result<(), AllocError>
    ensures { OnOk result (out.new.items ≡ out.old.items ++ text.printed_field (field_view field.now)) }
{
    out.extend_from_slice(b"\n  ")?;
    push_local(out, field.fixed)?;
    out.extend_from_slice(field.name.text.as_slice())?;
    out.extend_from_slice(b": ")?;
    push_type(out, &field.ty)?;
    push_initial(alloc, out, &field.value)
}

/// Fields, each on a line of its own.
pub fn push_fields(alloc: Global, out: &mut Vec<u8>, fields: &[FieldDef]) -> Result<(), AllocError>
    ensures { OnOk result (out.new.items ≡ out.old.items ++ parts.printed_fields (map field_view fields.now)) }
{
    for field in fields {
        push_field(alloc, out, field)?;
    }
    Ok(())
}

fn push_param(out: &mut Vec<u8>, param: &ParamDef) -> Result<(), AllocError>
    ensures { OnOk result (out.new.items ≡ out.old.items ++ text.printed_param param.now) }
{
    out.extend_from_slice(param.name.text.as_slice())?;
    out.extend_from_slice(b": ")?;
    push_type(out, &param.ty)
}

fn push_params(out: &mut Vec<u8>, params: &[ParamDef]) -> Result<(), AllocError>
    ensures { OnOk result (out.new.items ≡ out.old.items ++ parts.printed_params params.now) }
{
    let mut first = true;
    for param in params {
        push_between(out, first, b", ")?;
        push_param(out, param)?;
        first = false;
    }
    Ok(())
}

// The items of a body, each on a line of its own.
fn push_lines(alloc: Global, out: &mut Vec<u8>, items: &[Item]) -> Result<(), AllocError>
    ensures { OnOk result (out.new.items ≡ out.old.items ++ parts.printed_lines (items_view items.now)) }
{
    for item in items {
        out.extend_from_slice(b"\n    ")?;
        push_item(alloc, out, item)?;
    }
    Ok(())
}

fn push_body_lines(alloc: Global, out: &mut Vec<u8>, body: &Seq) -> Result<(), AllocError>
    ensures { OnOk result (out.new.items ≡ out.old.items ++ text.body_lines (seq_view body.now)) }
{
    push_lines(alloc, out, body.items.as_slice())
}

fn push_body(alloc: Global, out: &mut Vec<u8>, body: &Option<Seq>) -> Result<(), AllocError>
    ensures { OnOk result (out.new.items ≡ out.old.items ++ parts.printed_body (maybe_seq body.now)) }
{
    match body {
        Some(seq) => {
            out.extend_from_slice(b" =>")?;
            push_body_lines(alloc, out, seq)
        }
        None => Ok(()),
    }
}

fn method_text(word: MethodWord) -> &'static [u8]
    ensures { result.now ≡ word_text (method_word word) }
{
    match word {
        MethodWord::Fun => b"fun",
        MethodWord::Be => b"be",
        MethodWord::New => b"new",
    }
}

// The name of a method, its parameters and its result.
fn push_signature(out: &mut Vec<u8>, method: &MethodDef) -> Result<(), AllocError>
    ensures { OnOk result (out.new.items ≡ out.old.items ++ (method.now.name.text ++ (40 ∷ (parts.printed_params method.now.params ++ (41 ∷ text.printed_type method.now.result))))) }
{
    out.extend_from_slice(method.name.text.as_slice())?;
    out.extend_from_slice(b"(")?;
    push_params(out, method.params.as_slice())?;
    out.extend_from_slice(b")")?;
    push_typed(out, &method.result)
}

fn push_method(alloc: Global, out: &mut Vec<u8>, method: &MethodDef) -> Result<(), AllocError>
    ensures { OnOk result (out.new.items ≡ out.old.items ++ text.printed_method (method_view method.now)) }
{
    out.extend_from_slice(b"\n  ")?;
    out.extend_from_slice(method_text(method.word))?;
    push_cap(out, method.cap)?;
    out.extend_from_slice(b" ")?;
    push_signature(out, method)?;
    push_body(alloc, out, &method.body)
}

/// Methods, each on lines of its own.
pub fn push_methods(
    alloc: Global,
    out: &mut Vec<u8>,
    methods: &[MethodDef],
) -> Result<(), AllocError>
    ensures { OnOk result (out.new.items ≡ out.old.items ++ parts.printed_methods (map method_view methods.now)) }
{
    for method in methods {
        push_method(alloc, out, method)?;
    }
    Ok(())
}
