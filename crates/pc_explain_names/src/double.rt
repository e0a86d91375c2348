//! The lines about a name that is taken.
ghost use Rattle.std.specs.Prelude.{◌≡◌, ◌++◌, IfOk, OnOk};
ghost use Rattle.std.specs.Option.{option_map};
ghost use Rattle.pc_explain_names.specs.NameLines as spec;
ghost use Rattle.pc_tree.specs.View.{entity_view, file_view, method_view};

use crate::bearers::{Bearer, bearer_of, bearer_word, create_bearer, is_built_in};
use crate::lists::first_other;
use crate::spans::name_spans;
use crate::unknown::{is_provided, push_node_line};
use pc_base::Span;
use pc_explain_window::{piece_of, push_bytes, push_piece, push_place, push_quoted};
use pc_tree::{Entity, File, MethodDef};
use std::alloc::{AllocError, Global};

// Appends the line about a built-in name.
#[tactic(auto, unfolding(crate::specs::NameLines::built_in_line))]
fn push_built_in_line(alloc: Global, out: &mut Vec<u8>, name: &[u8]) -> Result<(), AllocError>
    ensures { OnOk result (out.new.items ≡ out.old.items ++ spec.built_in_line name.now) }
{
    push_bytes(out, b"rule name: ")?;
    push_piece(alloc, out, name)?;
    push_bytes(out, b" is built in\n")
}

// Appends where the name is.
#[tactic(auto, unfolding(crate::specs::NameLines::stands_at))]
fn push_stands_at(alloc: Global, out: &mut Vec<u8>, bytes: &[u8], at: u32) -> Result<(), AllocError>
    ensures { OnOk result (out.new.items ≡ out.old.items ++ spec.stands_at bytes.now at) }
{
    push_bytes(out, b" at ")?;
    push_place(alloc, out, bytes, at)?;
    push_bytes(out, b", which is visible here\n")
}

// Appends the line about a name that this thing has, at this byte.
#[tactic(auto, unfolding(crate::specs::NameLines::named_line))]
fn push_named_line(
    alloc: Global,
    out: &mut Vec<u8>,
    bytes: &[u8],
    name: &[u8],
    bearer: Bearer,
    at: u32,
) -> Result<(), AllocError>
    ensures { OnOk result (out.new.items ≡ out.old.items ++ spec.named_line bytes.now name.now bearer at) }
{
    push_bytes(out, b"rule name: ")?;
    push_quoted(alloc, out, name)?;
    push_bytes(out, b" is the name of the ")?;
    push_bytes(out, bearer_word(bearer))?;
    push_stands_at(alloc, out, bytes, at)
}

// Appends the lines about a name that this thing has, at this byte.
#[tactic(auto, unfolding(crate::specs::NameLines::bearer_lines))]
fn push_bearer_lines(
    alloc: Global,
    out: &mut Vec<u8>,
    bytes: &[u8],
    name: &[u8],
    bearer: Bearer,
    at: u32,
) -> Result<(), AllocError>
    ensures { OnOk result (out.new.items ≡ out.old.items ++ spec.bearer_lines bytes.now name.now bearer at) }
{
    push_named_line(alloc, out, bytes, name, bearer, at)?;
    push_other_name_hint(out)
}

// Appends what to do about two things with the same name.
fn push_other_name_hint(out: &mut Vec<u8>) -> Result<(), AllocError>
    ensures { OnOk result (out.new.items ≡ out.old.items ++ spec.other_name_hint) }
{
    push_bytes(out, b"hint: give one of the two another name\n")
}

// Appends the lines about a built-in name.
#[tactic(auto, unfolding(crate::specs::NameLines::built_in_lines))]
fn push_built_in_lines(alloc: Global, out: &mut Vec<u8>, name: &[u8]) -> Result<(), AllocError>
    ensures { OnOk result (out.new.items ≡ out.old.items ++ spec.built_in_lines name.now) }
{
    push_built_in_line(alloc, out, name)?;
    push_other_name_hint(out)
}

// Appends the lines about a name that a field has in an entity that takes over the method.
#[tactic(auto, unfolding(crate::specs::NameLines::taken_lines))]
fn push_taken_lines(alloc: Global, out: &mut Vec<u8>, name: &[u8]) -> Result<(), AllocError>
    ensures { OnOk result (out.new.items ≡ out.old.items ++ spec.taken_lines name.now) }
{
    push_bytes(out, b"rule name: ")?;
    push_quoted(alloc, out, name)?;
    push_bytes(
        out,
        b" is the name of a field of an entity that takes this method over\n",
    )?;
    push_other_name_hint(out)
}

// Appends where the field or method `create` is, and to which entity `create` is added.
#[tactic(auto, unfolding(crate::specs::NameLines::added_at))]
fn push_added_at(
    alloc: Global,
    out: &mut Vec<u8>,
    bytes: &[u8],
    entity: &Entity,
    at: u32,
) -> Result<(), AllocError>
    ensures { OnOk result (out.new.items ≡ out.old.items ++ spec.added_at bytes.now (entity_view entity.now) at) }
{
    push_bytes(out, b" at ")?;
    push_place(alloc, out, bytes, at)?;
    push_bytes(out, b", and a constructor `create` is added to ")?;
    push_piece(alloc, out, entity.name.text.as_slice())?;
    push_bytes(out, b", which has none\n")
}

// Appends the line about a field or method `create`, at this byte.
#[tactic(auto, unfolding(crate::specs::NameLines::added_line))]
fn push_added_line(
    alloc: Global,
    out: &mut Vec<u8>,
    bytes: &[u8],
    entity: &Entity,
    bearer: Bearer,
    at: u32,
) -> Result<(), AllocError>
    ensures { OnOk result (out.new.items ≡ out.old.items ++ spec.added_line bytes.now (entity_view entity.now) bearer at) }
{
    push_bytes(out, b"rule name: `create` is the name of the ")?;
    push_bytes(out, bearer_word(bearer))?;
    push_added_at(alloc, out, bytes, entity, at)
}

// Appends the line about the field or method `create`, if there is one.
#[tactic(auto, unfolding(crate::specs::NameLines::added_rule))]
fn push_added_rule(
    alloc: Global,
    out: &mut Vec<u8>,
    bytes: &[u8],
    entity: &Entity,
    found: Option<(Bearer, Span)>,
) -> Result<(), AllocError>
    ensures { OnOk result (out.new.items ≡ out.old.items ++ spec.added_rule bytes.now (entity_view entity.now) found) }
{
    match found {
        None => Ok(()),
        Some((bearer, span)) => push_added_line(alloc, out, bytes, entity, bearer, span.start),
    }
}

// Appends the lines about a constructor `create` that is added, at this byte.
#[tactic(auto, unfolding(crate::specs::NameLines::added_lines))]
fn push_added_lines(
    alloc: Global,
    out: &mut Vec<u8>,
    bytes: &[u8],
    entity: &Entity,
    method: Option<&MethodDef>,
    at: u32,
) -> Result<(), AllocError>
    ensures { OnOk result (out.new.items ≡ out.old.items ++ spec.added_lines bytes.now (entity_view entity.now) (option_map (λ m. method_view m.now) method.entry) at) }
{
    let found = create_bearer(alloc, bytes, entity, at)?;
    push_node_line(alloc, out, b"create", entity, method)?;
    push_added_rule(alloc, out, bytes, entity, found)?;
    push_other_name_hint(out)
}

// Appends the line about a name that is in an `is` list already, at this byte.
#[tactic(auto, unfolding(crate::specs::NameLines::again_line))]
fn push_again_line(
    alloc: Global,
    out: &mut Vec<u8>,
    bytes: &[u8],
    name: &[u8],
    at: u32,
) -> Result<(), AllocError>
    ensures { OnOk result (out.new.items ≡ out.old.items ++ spec.again_line bytes.now name.now at) }
{
    push_bytes(out, b"rule name: ")?;
    push_quoted(alloc, out, name)?;
    push_bytes(out, b" stands after `is` already, at ")?;
    push_place(alloc, out, bytes, at)?;
    push_bytes(out, b"\n")
}

// Appends the line about the other place of a name in an `is` list, if there is one.
#[tactic(auto, unfolding(crate::specs::NameLines::again_rule))]
fn push_again_rule(
    alloc: Global,
    out: &mut Vec<u8>,
    bytes: &[u8],
    name: &[u8],
    found: Option<Span>,
) -> Result<(), AllocError>
    ensures { OnOk result (out.new.items ≡ out.old.items ++ spec.again_rule bytes.now name.now found) }
{
    match found {
        None => Ok(()),
        Some(span) => push_again_line(alloc, out, bytes, name, span.start),
    }
}

// The first place of the name in the entity's `is` list, other than at this byte.
#[tactic(auto, unfolding(crate::specs::NameLines::first_provided))]
fn first_provided(
    alloc: Global,
    bytes: &[u8],
    name: &[u8],
    entity: &Entity,
    at: u32,
) -> Result<Option<Span>, AllocError>
    ensures { IfOk result (λ found. found ≡ spec.first_provided bytes.now name.now (entity_view entity.now) at) }
{
    let spans = name_spans(alloc, entity.provides.as_slice())?;
    Ok(first_other(bytes, name, at, &spans))
}

// Appends the lines about a name that is in the entity's `is` list already.
#[tactic(auto, unfolding(crate::specs::NameLines::again_lines))]
fn push_again_lines(
    alloc: Global,
    out: &mut Vec<u8>,
    bytes: &[u8],
    name: &[u8],
    entity: &Entity,
    method: Option<&MethodDef>,
    at: u32,
) -> Result<(), AllocError>
    ensures { OnOk result (out.new.items ≡ out.old.items ++ spec.again_lines bytes.now name.now (entity_view entity.now) (option_map (λ m. method_view m.now) method.entry) at) }
{
    let found = first_provided(alloc, bytes, name, entity, at)?;
    push_node_line(alloc, out, name, entity, method)?;
    push_again_rule(alloc, out, bytes, name, found)?;
    push_bytes(out, b"hint: take one of the two away\n")
}

// Appends the lines about a name that nothing in the file has.
#[tactic(auto, unfolding(crate::specs::NameLines::unborne_lines))]
fn push_unborne_lines(
    alloc: Global,
    out: &mut Vec<u8>,
    bytes: &[u8],
    name: &[u8],
    entity: &Entity,
    method: Option<&MethodDef>,
    at: u32,
) -> Result<(), AllocError>
    ensures { OnOk result (out.new.items ≡ out.old.items ++ spec.unborne_lines bytes.now name.now (entity_view entity.now) (option_map (λ m. method_view m.now) method.entry) at) }
{
    if is_built_in(name) {
        push_node_line(alloc, out, name, entity, method)?;
        push_built_in_lines(alloc, out, name)
    } else if entity.name.span.start == at {
        push_added_lines(alloc, out, bytes, entity, method, at)
    } else {
        push_node_line(alloc, out, name, entity, method)?;
        push_taken_lines(alloc, out, name)
    }
}

// Appends the lines about a name, by what has it.
#[tactic(auto, unfolding(crate::specs::NameLines::borne_lines))]
fn push_borne_lines(
    alloc: Global,
    out: &mut Vec<u8>,
    bytes: &[u8],
    name: &[u8],
    entity: &Entity,
    method: Option<&MethodDef>,
    at: u32,
    found: Option<(Bearer, Span)>,
) -> Result<(), AllocError>
    ensures { OnOk result (out.new.items ≡ out.old.items ++ spec.borne_lines bytes.now name.now (entity_view entity.now) (option_map (λ m. method_view m.now) method.entry) at found) }
{
    match found {
        None => push_unborne_lines(alloc, out, bytes, name, entity, method, at),
        Some((bearer, span)) => {
            push_node_line(alloc, out, name, entity, method)?;
            push_bearer_lines(alloc, out, bytes, name, bearer, span.start)
        }
    }
}

// Appends the lines about a name that is in no `is` list.
#[tactic(auto, unfolding(crate::specs::NameLines::named_lines))]
fn push_named_lines(
    alloc: Global,
    out: &mut Vec<u8>,
    bytes: &[u8],
    file: &File,
    name: &[u8],
    entity: &Entity,
    method: Option<&MethodDef>,
    at: u32,
) -> Result<(), AllocError>
    ensures { OnOk result (out.new.items ≡ out.old.items ++ spec.named_lines bytes.now (file_view file.now) name.now (entity_view entity.now) (option_map (λ m. method_view m.now) method.entry) at) }
{
    let found = bearer_of(alloc, bytes, file, entity, method, name, at)?;
    push_borne_lines(alloc, out, bytes, name, entity, method, at, found)
}

/// Appends the lines about a name that is taken, in an entity and its method.
#[tactic(auto, unfolding(crate::specs::NameLines::double_lines))]
pub(crate) fn push_double_lines(
    alloc: Global,
    out: &mut Vec<u8>,
    bytes: &[u8],
    file: &File,
    span: Span,
    entity: &Entity,
    method: Option<&MethodDef>,
) -> Result<(), AllocError>
    ensures { OnOk result (out.new.items ≡ out.old.items ++ spec.double_lines bytes.now (file_view file.now) span (entity_view entity.now) (option_map (λ m. method_view m.now) method.entry)) }
{
    let name = piece_of(bytes, span);
    if is_provided(alloc, entity, span.start)? {
        push_again_lines(alloc, out, bytes, name, entity, method, span.start)
    } else {
        push_named_lines(alloc, out, bytes, file, name, entity, method, span.start)
    }
}
