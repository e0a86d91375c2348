//! The lines about a name that nothing has.
ghost use Rattle.std.specs.Prelude.{◌≡◌, ◌++◌, false, map, true, IfOk, OnOk, Some};
ghost use Rattle.std.specs.List.{list_any};
ghost use Rattle.std.specs.Option.{option_map};
ghost use Rattle.pc_explain_names.specs.NameLines as spec;
ghost use Rattle.pc_members.specs.Views.{members_view};
ghost use Rattle.pc_tree.specs.View.{entity_view, file_view, method_view};

use crate::bearers::{kind_word, known_kind};
use crate::homes::{marks_at, visible_at};
use crate::lists::{one_is_named, push_names};
use crate::marks::{Mark, use_in};
use crate::rows::{has_member, push_member_names};
use crate::spans::{field_spans, method_spans, name_spans};
use pc_base::Span;
use pc_explain_window::{piece_of, push_bytes, push_piece, push_quoted};
use pc_members::Member;
use pc_tree::{Entity, EntityKind, File, MethodDef};
use std::alloc::{AllocError, Global};

// Appends a dot and the method's name, if there is a method.
fn push_method_part(
    alloc: Global,
    out: &mut Vec<u8>,
    method: Option<&MethodDef>,
) -> Result<(), AllocError>
    ensures { OnOk result (out.new.items ≡ out.old.items ++ spec.method_part (option_map (λ m. method_view m.now) method.entry)) }
{
    match method {
        Some(method) => {
            push_bytes(out, b".")?;
            push_piece(alloc, out, method.name.text.as_slice())
        }
        None => Ok(()),
    }
}

// Appends ` in E.m`.
#[tactic(auto, unfolding(crate::specs::NameLines::home_of_name))]
fn push_home(
    alloc: Global,
    out: &mut Vec<u8>,
    entity: &Entity,
    method: Option<&MethodDef>,
) -> Result<(), AllocError>
    ensures { OnOk result (out.new.items ≡ out.old.items ++ spec.home_of_name (entity_view entity.now) (option_map (λ m. method_view m.now) method.entry)) }
{
    push_bytes(out, b" in ")?;
    push_piece(alloc, out, entity.name.text.as_slice())?;
    push_method_part(alloc, out, method)
}

/// Appends the line about the name.
#[tactic(auto, unfolding(crate::specs::NameLines::name_node_line))]
pub(crate) fn push_node_line(
    alloc: Global,
    out: &mut Vec<u8>,
    name: &[u8],
    entity: &Entity,
    method: Option<&MethodDef>,
) -> Result<(), AllocError>
    ensures { OnOk result (out.new.items ≡ out.old.items ++ spec.name_node_line name.now (entity_view entity.now) (option_map (λ m. method_view m.now) method.entry)) }
{
    push_bytes(out, b"node: the name ")?;
    push_quoted(alloc, out, name)?;
    push_home(alloc, out, entity, method)?;
    push_bytes(out, b"\n")
}

// Appends the fields that a bare name may be.
#[tactic(auto, unfolding(crate::specs::NameLines::fields_part))]
fn push_fields_part(
    alloc: Global,
    out: &mut Vec<u8>,
    bytes: &[u8],
    entity: &Entity,
) -> Result<(), AllocError>
    ensures { OnOk result (out.new.items ≡ out.old.items ++ spec.fields_part bytes.now (entity_view entity.now)) }
{
    let fields = field_spans(alloc, entity.fields.as_slice())?;
    push_bytes(out, b"), a field of ")?;
    push_piece(alloc, out, entity.name.text.as_slice())?;
    push_bytes(out, b" (")?;
    push_names(alloc, out, bytes, &fields)
}

// Appends the names of the methods that a bare name may be.
#[tactic(auto, unfolding(crate::specs::NameLines::methods_part))]
fn push_methods_part(alloc: Global, out: &mut Vec<u8>, members: &[Member]) -> Result<(), AllocError>
    ensures { OnOk result (out.new.items ≡ out.old.items ++ spec.methods_part (members_view members.now)) }
{
    push_bytes(out, b"), or directly before arguments one of its methods (")?;
    push_member_names(alloc, out, members)?;
    push_bytes(out, b")\n")
}

// Appends the fields and the methods that a bare name may be.
#[tactic(auto, unfolding(crate::specs::NameLines::members_part))]
fn push_members_part(
    alloc: Global,
    out: &mut Vec<u8>,
    bytes: &[u8],
    entity: &Entity,
    members: &[Member],
) -> Result<(), AllocError>
    ensures { OnOk result (out.new.items ≡ out.old.items ++ spec.members_part bytes.now (entity_view entity.now) (members_view members.now)) }
{
    push_fields_part(alloc, out, bytes, entity)?;
    push_methods_part(alloc, out, members)
}

// Appends what a bare name may be.
#[tactic(auto, unfolding(crate::specs::NameLines::bare_line))]
fn push_bare_line(
    alloc: Global,
    out: &mut Vec<u8>,
    bytes: &[u8],
    entity: &Entity,
    members: &[Member],
    visible: &[Span],
) -> Result<(), AllocError>
    ensures { OnOk result (out.new.items ≡ out.old.items ++ spec.bare_line bytes.now (entity_view entity.now) (members_view members.now) visible.now) }
{
    push_bytes(
        out,
        b"rule name: a bare name is a visible local or parameter (here ",
    )?;
    push_names(alloc, out, bytes, visible)?;
    push_members_part(alloc, out, bytes, entity, members)
}

// Whether the entity has a field with this name.
#[tactic(auto, unfolding(crate::specs::NameLines::has_field_named))]
fn has_field(alloc: Global, bytes: &[u8], name: &[u8], entity: &Entity) -> Result<bool, AllocError>
    ensures { IfOk result (λ has. has ≡ spec.has_field_named bytes.now name.now (entity_view entity.now)) }
{
    let spans = field_spans(alloc, entity.fields.as_slice())?;
    Ok(one_is_named(bytes, name, &spans))
}

// Appends that the name is a method's.
#[tactic(auto, unfolding(crate::specs::NameLines::call_line))]
fn push_call_line(alloc: Global, out: &mut Vec<u8>, name: &[u8]) -> Result<(), AllocError>
    ensures { OnOk result (out.new.items ≡ out.old.items ++ spec.call_line name.now) }
{
    push_bytes(out, b"hint: write `")?;
    push_piece(alloc, out, name)?;
    push_bytes(out, b"(..)`\n")
}

// Appends that the name is a method's, if it is.
fn push_call_hint(
    alloc: Global,
    out: &mut Vec<u8>,
    named: bool,
    name: &[u8],
) -> Result<(), AllocError>
    ensures { OnOk result (out.new.items ≡ out.old.items ++ spec.call_hint named name.now) }
{
    if named {
        push_call_line(alloc, out, name)
    } else {
        Ok(())
    }
}

// Appends that the name is a field's.
#[tactic(auto, unfolding(crate::specs::NameLines::old_value_line))]
fn push_old_value_line(alloc: Global, out: &mut Vec<u8>, name: &[u8]) -> Result<(), AllocError>
    ensures { OnOk result (out.new.items ≡ out.old.items ++ spec.old_value_line name.now) }
{
    push_bytes(out, b"hint: its old value is what `")?;
    push_piece(alloc, out, name)?;
    push_bytes(out, b" = ..` gives\n")
}

// Appends that the name is a field's, if it is.
fn push_old_value_hint(
    alloc: Global,
    out: &mut Vec<u8>,
    named: bool,
    name: &[u8],
) -> Result<(), AllocError>
    ensures { OnOk result (out.new.items ≡ out.old.items ++ spec.old_value_hint named name.now) }
{
    if named {
        push_old_value_line(alloc, out, name)
    } else {
        Ok(())
    }
}

// Appends the lines about a bare name.
#[tactic(auto, unfolding(crate::specs::NameLines::bare_lines))]
fn push_bare_lines(
    alloc: Global,
    out: &mut Vec<u8>,
    bytes: &[u8],
    name: &[u8],
    entity: &Entity,
    members: &[Member],
    visible: &[Span],
) -> Result<(), AllocError>
    ensures { OnOk result (out.new.items ≡ out.old.items ++ spec.bare_lines bytes.now name.now (entity_view entity.now) (members_view members.now) visible.now) }
{
    push_bare_line(alloc, out, bytes, entity, members, visible)?;
    push_call_hint(alloc, out, has_member(name, members), name)
}

// Appends what may be consumed.
#[tactic(auto, unfolding(crate::specs::NameLines::consumed_line))]
fn push_consumed_line(
    alloc: Global,
    out: &mut Vec<u8>,
    bytes: &[u8],
    visible: &[Span],
) -> Result<(), AllocError>
    ensures { OnOk result (out.new.items ≡ out.old.items ++ spec.consumed_line bytes.now visible.now) }
{
    push_bytes(
        out,
        b"rule name: a visible local or parameter is consumed; here are ",
    )?;
    push_names(alloc, out, bytes, visible)?;
    push_bytes(out, b"\n")
}

// Appends the lines about a name after `consume`.
#[tactic(auto, unfolding(crate::specs::NameLines::consumed_lines))]
fn push_consumed_lines(
    alloc: Global,
    out: &mut Vec<u8>,
    bytes: &[u8],
    name: &[u8],
    entity: &Entity,
    visible: &[Span],
) -> Result<(), AllocError>
    ensures { OnOk result (out.new.items ≡ out.old.items ++ spec.consumed_lines bytes.now name.now (entity_view entity.now) visible.now) }
{
    let named = has_field(alloc, bytes, name, entity)?;
    push_consumed_line(alloc, out, bytes, visible)?;
    push_old_value_hint(alloc, out, named, name)
}

// Appends the line about a name after a type's name and a dot.
#[tactic(auto, unfolding(crate::specs::NameLines::constructor_rule_line))]
fn push_constructor_line(
    alloc: Global,
    out: &mut Vec<u8>,
    entity: &[u8],
    name: &[u8],
) -> Result<(), AllocError>
    ensures { OnOk result (out.new.items ≡ out.old.items ++ spec.constructor_rule_line entity.now name.now) }
{
    push_bytes(
        out,
        b"rule name: after the name of a class or an actor comes one of its constructors with its arguments, and ",
    )?;
    push_piece(alloc, out, entity)?;
    push_bytes(out, b" has no constructor ")?;
    push_quoted(alloc, out, name)?;
    push_bytes(out, b"\n")
}

// Whether the entity has a method with this name.
#[tactic(auto, unfolding(crate::specs::NameLines::has_method_named))]
fn has_method(alloc: Global, bytes: &[u8], name: &[u8], entity: &Entity) -> Result<bool, AllocError>
    ensures { IfOk result (λ has. has ≡ spec.has_method_named bytes.now name.now (entity_view entity.now)) }
{
    let spans = method_spans(alloc, entity.methods.as_slice())?;
    Ok(one_is_named(bytes, name, &spans))
}

// Whether the first of these entities with a name has a method with this one.
fn one_has_method(
    alloc: Global,
    bytes: &[u8],
    entity: &[u8],
    name: &[u8],
    entities: &[Entity],
) -> Result<bool, AllocError>
    ensures { IfOk result (λ has. has ≡ spec.method_in bytes.now entity.now name.now (map entity_view entities.now)) }
{
    for one in entities {
        if one.name.text.as_slice() == entity {
            return has_method(alloc, bytes, name, one);
        }
    }
    Ok(false)
}

// Appends that the name is a method's.
#[tactic(auto, unfolding(crate::specs::NameLines::object_line))]
fn push_object_line(
    alloc: Global,
    out: &mut Vec<u8>,
    entity: &[u8],
    name: &[u8],
) -> Result<(), AllocError>
    ensures { OnOk result (out.new.items ≡ out.old.items ++ spec.object_line entity.now name.now) }
{
    push_bytes(out, b"hint: ")?;
    push_quoted(alloc, out, name)?;
    push_bytes(out, b" is a method: call it on an object of ")?;
    push_piece(alloc, out, entity)?;
    push_bytes(out, b"\n")
}

// Appends that the name is a method's, if it is.
fn push_on_object_hint(
    alloc: Global,
    out: &mut Vec<u8>,
    named: bool,
    entity: &[u8],
    name: &[u8],
) -> Result<(), AllocError>
    ensures { OnOk result (out.new.items ≡ out.old.items ++ spec.on_object_hint named entity.now name.now) }
{
    if named {
        push_object_line(alloc, out, entity, name)
    } else {
        Ok(())
    }
}

// Appends the lines about a name after a type's name and a dot.
#[tactic(auto, unfolding(crate::specs::NameLines::constructor_lines))]
fn push_constructor_lines(
    alloc: Global,
    out: &mut Vec<u8>,
    bytes: &[u8],
    file: &File,
    entity: &[u8],
    name: &[u8],
) -> Result<(), AllocError>
    ensures { OnOk result (out.new.items ≡ out.old.items ++ spec.constructor_lines bytes.now (file_view file.now) entity.now name.now) }
{
    let named = one_has_method(alloc, bytes, entity, name, file.entities.as_slice())?;
    push_constructor_line(alloc, out, entity, name)?;
    push_on_object_hint(alloc, out, named, entity, name)
}

fn article(kind: EntityKind) -> &'static [u8]
    ensures { result.now ≡ spec.kind_article kind }
{
    match kind {
        EntityKind::Class | EntityKind::Primitive | EntityKind::Trait => b"a ",
        EntityKind::Actor | EntityKind::Interface => b"an ",
    }
}

// Appends that the name is of an entity of this kind.
#[tactic(auto, unfolding(crate::specs::NameLines::name_is_a))]
fn push_is_a(
    alloc: Global,
    out: &mut Vec<u8>,
    name: &[u8],
    kind: EntityKind,
) -> Result<(), AllocError>
    ensures { OnOk result (out.new.items ≡ out.old.items ++ spec.name_is_a name.now kind) }
{
    push_piece(alloc, out, name)?;
    push_bytes(out, b" is ")?;
    push_bytes(out, article(kind))?;
    push_bytes(out, kind_word(kind))
}

// Appends the line about a type name after `is` that is the name of another entity.
#[tactic(auto, unfolding(crate::specs::NameLines::type_line))]
fn push_provided_line(
    alloc: Global,
    out: &mut Vec<u8>,
    name: &[u8],
    kind: EntityKind,
) -> Result<(), AllocError>
    ensures { OnOk result (out.new.items ≡ out.old.items ++ spec.type_line true name.now (Some kind)) }
{
    push_bytes(
        out,
        b"rule name: after `is` comes a trait or an interface, and ",
    )?;
    push_is_a(alloc, out, name, kind)?;
    push_bytes(out, b"\n")
}

// Appends the line about a type name in an expression that is the name of another entity.
#[tactic(auto, unfolding(crate::specs::NameLines::type_line))]
fn push_expression_line(
    alloc: Global,
    out: &mut Vec<u8>,
    name: &[u8],
    kind: EntityKind,
) -> Result<(), AllocError>
    ensures { OnOk result (out.new.items ≡ out.old.items ++ spec.type_line false name.now (Some kind)) }
{
    push_bytes(out, b"rule name: ")?;
    push_is_a(alloc, out, name, kind)?;
    push_bytes(
        out,
        b", and only None, a primitive of the file, and a class or actor with a constructor `create` stand in an expression\n",
    )
}

// Appends the line about a type name, in an expression or after `is`.
#[tactic(auto, unfolding(crate::specs::NameLines::type_line))]
fn push_type_line(
    alloc: Global,
    out: &mut Vec<u8>,
    provided: bool,
    name: &[u8],
    kind: Option<EntityKind>,
) -> Result<(), AllocError>
    ensures { OnOk result (out.new.items ≡ out.old.items ++ spec.type_line provided name.now kind) }
{
    match kind {
        None => {
            push_bytes(out, b"rule name: no entity is called ")?;
            push_piece(alloc, out, name)?;
            push_bytes(out, b"\n")
        }
        Some(kind) => {
            if provided {
                push_provided_line(alloc, out, name, kind)
            } else {
                push_expression_line(alloc, out, name, kind)
            }
        }
    }
}

// Whether one of these places begins at the byte.
fn one_begins_at(spans: &[Span], at: u32) -> bool
    ensures { result ≡ list_any (spec.begins_at at) spans.now }
{
    spans.iter().any(|span| span.start == at)
}

/// Whether the name at this byte is in the entity's `is` list.
#[tactic(auto, unfolding(crate::specs::NameLines::is_provided))]
pub(crate) fn is_provided(alloc: Global, entity: &Entity, at: u32) -> Result<bool, AllocError>
    ensures { IfOk result (λ is. is ≡ spec.is_provided (entity_view entity.now) at) }
{
    let spans = name_spans(alloc, entity.provides.as_slice())?;
    Ok(one_begins_at(&spans, at))
}

// Appends the lines about a type name that is outside all methods, or in an `is` list.
#[tactic(auto, unfolding(crate::specs::NameLines::outside_line))]
fn push_outside_lines(
    alloc: Global,
    out: &mut Vec<u8>,
    name: &[u8],
    file: &File,
    entity: &Entity,
    at: u32,
) -> Result<(), AllocError>
    ensures { OnOk result (out.new.items ≡ out.old.items ++ spec.outside_line name.now (file_view file.now) (entity_view entity.now) at) }
{
    let provided = is_provided(alloc, entity, at)?;
    let kind = known_kind(name, file.entities.as_slice());
    push_type_line(alloc, out, provided, name, kind)
}

// Appends the lines about a name, by how it is used.
#[tactic(auto, unfolding(crate::specs::NameLines::use_lines))]
fn push_use_lines(
    alloc: Global,
    out: &mut Vec<u8>,
    bytes: &[u8],
    file: &File,
    span: Span,
    entity: &Entity,
    members: &[Member],
    visible: &[Span],
    used: Option<Mark>,
) -> Result<(), AllocError>
    ensures { OnOk result (out.new.items ≡ out.old.items ++ spec.use_lines bytes.now (file_view file.now) span (entity_view entity.now) (members_view members.now) visible.now used) }
{
    let name = piece_of(bytes, span);
    match used {
        Some(Mark::Bare) => push_bare_lines(alloc, out, bytes, name, entity, members, visible),
        Some(Mark::Consumed) => push_consumed_lines(alloc, out, bytes, name, entity, visible),
        Some(Mark::Constructor(head)) => {
            push_constructor_lines(alloc, out, bytes, file, piece_of(bytes, head), name)
        }
        Some(Mark::Type) => {
            let kind = known_kind(name, file.entities.as_slice());
            push_type_line(alloc, out, false, name, kind)
        }
        Some(Mark::Local(_)) => Ok(()),
        None => push_outside_lines(alloc, out, name, file, entity, span.start),
    }
}

/// Appends the lines about a name that nothing has, in an entity with these members and its method.
#[tactic(auto, unfolding(crate::specs::NameLines::unknown_lines))]
pub(crate) fn push_unknown_lines(
    alloc: Global,
    out: &mut Vec<u8>,
    bytes: &[u8],
    file: &File,
    span: Span,
    entity: &Entity,
    members: &[Member],
    method: Option<&MethodDef>,
) -> Result<(), AllocError>
    ensures { OnOk result (out.new.items ≡ out.old.items ++ spec.unknown_lines bytes.now (file_view file.now) span (entity_view entity.now) (members_view members.now) (option_map (λ m. method_view m.now) method.entry)) }
{
    let marks = marks_at(alloc, span.start, entity, method)?;
    let visible = visible_at(alloc, method, &marks)?;
    push_node_line(alloc, out, piece_of(bytes, span), entity, method)?;
    push_use_lines(
        alloc,
        out,
        bytes,
        file,
        span,
        entity,
        members,
        &visible,
        use_in(&marks),
    )
}
