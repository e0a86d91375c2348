//! The names after a `.` in the bodies of a file.
ghost use Rattle.std.specs.Prelude.{◌≡◌, OnOk, map};
ghost use Rattle.pc_tree.specs.View.{arm_view, arms_view, entity_view, expr_view, exprs_view, field_view, item_view, items_view, maybe_expr, maybe_seq, method_view, other_view, seq_view, suffix_view, suffixes_view};
ghost use Rattle.pc_members.specs.MemberLists.{with_names};
ghost use Rattle.pc_body_spec.specs.Slots.{entities_texts};
ghost use Rattle.pc_body_walks.specs.Gathering as spec;

use pc_members::NameTable;
use pc_tree::{Arm, Entity, Expr, FieldDef, Item, MethodDef, Seq, Suffix};
use std::alloc::AllocError;

/// Appends to the table the names after a `.` in the initial values and bodies of these entities, in the order of the
/// text, each once.
pub fn add_texts(table: &mut NameTable, entities: &[Entity]) -> Result<(), AllocError>
    ensures { OnOk result (table.new ≡ with_names table.old (entities_texts (map entity_view entities.now))) }
{
    members_of_all(table, entities)
}

fn members_of_all(table: &mut NameTable, entities: &[Entity]) -> Result<(), AllocError>
    ensures { OnOk result (table.new ≡ spec.with_entities table.old (map entity_view entities.now)) }
{
    for entity in entities {
        members(table, entity)?;
    }
    Ok(())
}

fn members(table: &mut NameTable, entity: &Entity) -> Result<(), AllocError>
    ensures { OnOk result (table.new ≡ spec.with_bodies (spec.with_values table.old (entity_view entity.now).fields) (entity_view entity.now).methods) }
{
    values(table, entity.fields.as_slice())?;
    bodies(table, entity.methods.as_slice())
}

// Those of the initial values of these fields.
fn values(table: &mut NameTable, fields: &[FieldDef]) -> Result<(), AllocError>
    ensures { OnOk result (table.new ≡ spec.with_values table.old (map field_view fields.now)) }
{
    for field in fields {
        value(table, &field.value)?;
    }
    Ok(())
}

fn value(table: &mut NameTable, value: &Option<Expr>) -> Result<(), AllocError>
    ensures { OnOk result (table.new ≡ spec.with_value table.old (maybe_expr value.now)) }
{
    match value {
        None => Ok(()),
        Some(value) => expr(table, value),
    }
}

// Those of the bodies of these methods.
fn bodies(table: &mut NameTable, methods: &[MethodDef]) -> Result<(), AllocError>
    ensures { OnOk result (table.new ≡ spec.with_bodies table.old (map method_view methods.now)) }
{
    for method in methods {
        body(table, &method.body)?;
    }
    Ok(())
}

fn body(table: &mut NameTable, body: &Option<Seq>) -> Result<(), AllocError>
    ensures { OnOk result (table.new ≡ spec.with_body table.old (maybe_seq body.now)) }
{
    match body {
        None => Ok(()),
        Some(body) => sequence(table, body),
    }
}

#[cycle(walk)]
fn expr(table: &mut NameTable, expression: &Expr) -> Result<(), AllocError>
    ensures { OnOk result (table.new ≡ spec.with_expr table.old (expr_view expression.now)) }
{
    match expression {
        Expr::Number { .. }
        | Expr::Truth { .. }
        | Expr::Text { .. }
        | Expr::Name(_)
        | Expr::TypeName(_)
        | Expr::This(_)
        | Expr::Consume { .. } => Ok(()),
        Expr::Not { inner, .. } => expr(table, inner),
        Expr::Infix { terms, .. } => exprs(table, terms.as_slice()),
        Expr::Chain { head, suffixes, .. } => {
            expr(table, head)?;
            suffix_list(table, suffixes.as_slice())
        }
        Expr::Group { body, .. } | Expr::Recover { body, .. } => sequence(table, body),
        Expr::If { arms, other, .. } => {
            arm_list(table, arms.as_slice())?;
            otherwise(table, other)
        }
        Expr::While { cond, body, .. } => {
            sequence(table, cond)?;
            sequence(table, body)
        }
        Expr::Assign { left, right, .. } => {
            expr(table, left)?;
            expr(table, right)
        }
    }
}

#[cycle(walk)]
fn exprs(table: &mut NameTable, xs: &[Expr]) -> Result<(), AllocError>
    ensures { OnOk result (table.new ≡ spec.with_exprs table.old (exprs_view xs.now)) }
{
    for x in xs {
        expr(table, x)?;
    }
    Ok(())
}

#[cycle(walk)]
fn suffix_list(table: &mut NameTable, xs: &[Suffix]) -> Result<(), AllocError>
    ensures { OnOk result (table.new ≡ spec.with_suffixes table.old (suffixes_view xs.now)) }
{
    for x in xs {
        suffix(table, x)?;
    }
    Ok(())
}

#[cycle(walk)]
fn suffix(table: &mut NameTable, part: &Suffix) -> Result<(), AllocError>
    ensures { OnOk result (table.new ≡ spec.with_suffix table.old (suffix_view part.now)) }
{
    match part {
        Suffix::Dot(name) => table.add(name.text.as_slice()),
        Suffix::Args { args, .. } => exprs(table, args.as_slice()),
    }
}

#[cycle(walk)]
fn arm_list(table: &mut NameTable, xs: &[Arm]) -> Result<(), AllocError>
    ensures { OnOk result (table.new ≡ spec.with_arms table.old (arms_view xs.now)) }
{
    for x in xs {
        arm(table, x)?;
    }
    Ok(())
}

#[cycle(walk)]
fn arm(table: &mut NameTable, part: &Arm) -> Result<(), AllocError>
    ensures { OnOk result (table.new ≡ spec.with_arm table.old (arm_view part.now)) }
{
    sequence(table, &part.cond)?;
    sequence(table, &part.body)
}

#[cycle(walk)]
fn otherwise(table: &mut NameTable, other: &Option<Box<Seq>>) -> Result<(), AllocError>
    ensures { OnOk result (table.new ≡ spec.with_other table.old (other_view other.now)) }
{
    match other {
        Some(body) => sequence(table, body),
        None => Ok(()),
    }
}

#[cycle(walk)]
fn sequence(table: &mut NameTable, seq: &Seq) -> Result<(), AllocError>
    ensures { OnOk result (table.new ≡ spec.with_seq table.old (seq_view seq.now)) }
{
    items(table, seq.items.as_slice())
}

#[cycle(walk)]
fn items(table: &mut NameTable, xs: &[Item]) -> Result<(), AllocError>
    ensures { OnOk result (table.new ≡ spec.with_items table.old (items_view xs.now)) }
{
    for x in xs {
        item(table, x)?;
    }
    Ok(())
}

#[cycle(walk)]
fn item(table: &mut NameTable, part: &Item) -> Result<(), AllocError>
    ensures { OnOk result (table.new ≡ spec.with_item table.old (item_view part.now)) }
{
    match part {
        Item::Local { value, .. } => expr(table, value),
        Item::Plain(e) => expr(table, e),
    }
}
