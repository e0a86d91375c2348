//! All names that a file defines or that follow a `.` in it: those that its tables contain.

use crate::key::KeyedBy;
use pc_tree::{Arm, Entity, Expr, FieldDef, File, Item, MethodDef, Name, ParamDef, Seq, Suffix};

/// The key made of the names that a file gives to entities, fields, methods, parameters and locals, and of those after
/// a `.`, in the order of the text. It does not allocate, and promises nothing, as no contract depends on a key.
pub fn keyed_by_names(file: &File) -> KeyedBy {
    let mut key = KeyedBy::nothing();
    for entity in file.entities.as_slice() {
        add_entity(&mut key, entity);
    }
    key
}

fn add_name(key: &mut KeyedBy, name: &Name) {
    key.add(name.text.as_slice());
}

fn add_entity(key: &mut KeyedBy, entity: &Entity) {
    add_name(key, &entity.name);
    add_fields(key, entity.fields.as_slice());
    add_methods(key, entity.methods.as_slice());
}

fn add_fields(key: &mut KeyedBy, fields: &[FieldDef]) {
    for field in fields {
        add_name(key, &field.name);
        add_value(key, &field.value);
    }
}

fn add_value(key: &mut KeyedBy, value: &Option<Expr>) {
    match value {
        None => {}
        Some(value) => expr(key, value),
    }
}

fn add_methods(key: &mut KeyedBy, methods: &[MethodDef]) {
    for method in methods {
        add_name(key, &method.name);
        add_params(key, method.params.as_slice());
        add_body(key, &method.body);
    }
}

fn add_params(key: &mut KeyedBy, params: &[ParamDef]) {
    for param in params {
        add_name(key, &param.name);
    }
}

fn add_body(key: &mut KeyedBy, body: &Option<Seq>) {
    match body {
        None => {}
        Some(body) => sequence(key, body),
    }
}

#[cycle(walk)]
fn expr(key: &mut KeyedBy, part: &Expr) {
    match part {
        Expr::Number { .. }
        | Expr::Truth { .. }
        | Expr::Text { .. }
        | Expr::Name(_)
        | Expr::TypeName(_)
        | Expr::This(_)
        | Expr::Consume { .. } => {}
        Expr::Not { inner, .. } => expr(key, inner),
        Expr::Infix { terms, .. } => exprs(key, terms.as_slice()),
        Expr::Chain { head, suffixes, .. } => {
            expr(key, head);
            suffix_list(key, suffixes.as_slice());
        }
        Expr::Group { body, .. } | Expr::Recover { body, .. } => sequence(key, body),
        Expr::If { arms, other, .. } => {
            arm_list(key, arms.as_slice());
            otherwise(key, other);
        }
        Expr::While { cond, body, .. } => {
            sequence(key, cond);
            sequence(key, body);
        }
        Expr::Assign { left, right, .. } => {
            expr(key, left);
            expr(key, right);
        }
    }
}

#[cycle(walk)]
fn exprs(key: &mut KeyedBy, xs: &[Expr]) {
    for x in xs {
        expr(key, x);
    }
}

#[cycle(walk)]
fn suffix_list(key: &mut KeyedBy, xs: &[Suffix]) {
    for x in xs {
        suffix(key, x);
    }
}

#[cycle(walk)]
fn suffix(key: &mut KeyedBy, part: &Suffix) {
    match part {
        Suffix::Dot(name) => add_name(key, name),
        Suffix::Args { args, .. } => exprs(key, args.as_slice()),
    }
}

#[cycle(walk)]
fn arm_list(key: &mut KeyedBy, xs: &[Arm]) {
    for x in xs {
        arm(key, x);
    }
}

#[cycle(walk)]
fn arm(key: &mut KeyedBy, part: &Arm) {
    sequence(key, &part.cond);
    sequence(key, &part.body);
}

#[cycle(walk)]
fn otherwise(key: &mut KeyedBy, other: &Option<Box<Seq>>) {
    match other {
        Some(body) => sequence(key, body),
        None => {}
    }
}

#[cycle(walk)]
fn sequence(key: &mut KeyedBy, seq: &Seq) {
    items(key, seq.items.as_slice());
}

#[cycle(walk)]
fn items(key: &mut KeyedBy, xs: &[Item]) {
    for x in xs {
        item(key, x);
    }
}

#[cycle(walk)]
fn item(key: &mut KeyedBy, part: &Item) {
    match part {
        Item::Local { name, value, .. } => {
            add_name(key, name);
            expr(key, value);
        }
        Item::Plain(value) => expr(key, value),
    }
}
