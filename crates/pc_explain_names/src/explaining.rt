//! The explanation of a fault of a file's names.
ghost use Rattle.std.specs.Prelude.{◌≡◌, ◌++◌, IfOk, OnOk, Some};
ghost use Rattle.pc_explain_names.specs.Homes.{entity_around as entity_is, method_at as method_is};
ghost use Rattle.pc_explain_names.specs.NameLines as lines;
ghost use Rattle.pc_explain_names.specs.Names as spec;
ghost use Rattle.pc_members.specs.Views.{members_view};
ghost use Rattle.pc_refusal_lines.specs.Lines.{no_main_line};
ghost use Rattle.pc_tree.specs.View.{entity_view, file_view};

use crate::bearers::kind_word;
use crate::double::push_double_lines;
use crate::homes::{entity_at, method_at, place_at};
use crate::rows::{last_row, list_rows};
use crate::unknown::push_unknown_lines;
use pc_base::{List, Span};
use pc_explain_window::{piece_of, push_bytes, push_head, push_piece};
use pc_members::Member;
use pc_names::NameFault;
use pc_tree::{Entity, EntityKind, File};
use std::alloc::{AllocError, Global};

// Appends the line about a trait or an interface.
#[tactic(auto, unfolding(crate::specs::NameLines::trait_line))]
fn push_trait_line(
    alloc: Global,
    out: &mut Vec<u8>,
    kind: EntityKind,
    name: &[u8],
) -> Result<(), AllocError>
    ensures { OnOk result (out.new.items ≡ out.old.items ++ lines.trait_line kind name.now) }
{
    push_bytes(out, b"node: the ")?;
    push_bytes(out, kind_word(kind))?;
    push_bytes(out, b" ")?;
    push_piece(alloc, out, name)?;
    push_bytes(out, b"\n")
}

// Appends that a chain leads from a trait back to it.
#[tactic(auto, unfolding(crate::specs::NameLines::chain_lines))]
fn push_chain_lines(alloc: Global, out: &mut Vec<u8>, name: &[u8]) -> Result<(), AllocError>
    ensures { OnOk result (out.new.items ≡ out.old.items ++ lines.chain_lines name.now) }
{
    push_bytes(out, b"rule is: a chain of `is` leads from ")?;
    push_piece(alloc, out, name)?;
    push_bytes(out, b" back to ")?;
    push_piece(alloc, out, name)?;
    push_bytes(out, b"\nhint: take one `is` of the chain away\n")
}

// Appends the lines about a trait or an interface in a cycle.
#[tactic(auto, unfolding(crate::specs::NameLines::cycle_lines))]
fn push_cycle_lines(
    alloc: Global,
    out: &mut Vec<u8>,
    kind: EntityKind,
    name: &[u8],
) -> Result<(), AllocError>
    ensures { OnOk result (out.new.items ≡ out.old.items ++ lines.cycle_lines kind name.now) }
{
    push_trait_line(alloc, out, kind, name)?;
    push_chain_lines(alloc, out, name)
}

// Appends the lines about the trait or the interface whose name is in a cycle.
fn push_cycle_in(
    alloc: Global,
    out: &mut Vec<u8>,
    bytes: &[u8],
    file: &File,
    span: Span,
) -> Result<(), AllocError>
    ensures { OnOk result (out.new.items ≡ out.old.items ++ spec.cycle_in bytes.now span (entity_is (file_view file.now) span.start)) }
{
    match entity_at(alloc, file, span.start)? {
        Some(entity) => push_cycle_lines(alloc, out, entity.kind, piece_of(bytes, span)),
        None => Ok(()),
    }
}

// Appends the lines about a `Main` that does not have the required form.
#[tactic(auto, unfolding(crate::specs::NameLines::main_lines))]
fn push_main_lines(out: &mut Vec<u8>) -> Result<(), AllocError>
    ensures { OnOk result (out.new.items ≡ out.old.items ++ lines.main_lines) }
{
    push_bytes(
        out,
        b"node: the name `Main`\nrule main: `Main` is an actor with a constructor `create` of exactly one parameter, of Env val\nhint: write `actor Main` with `new create(env: Env) => ..`\n",
    )
}

// Appends the explanation for a file with this name that has no `Main`.
fn push_no_main(out: &mut Vec<u8>, name: &str) -> Result<(), AllocError>
    ensures { OnOk result (out.new.items ≡ out.old.items ++ (no_main_line name.now ++ lines.no_main_lines)) }
{
    push_bytes(out, name.as_bytes())?;
    push_bytes(out, b": no Main\n")?;
    push_bytes(
        out,
        b"rule main: a program has one actor `Main` with `new create(env: Env)`, and this file has no entity of that name\nhint: add `actor Main` with `new create(env: Env) => None`\n",
    )
}

// Appends the lines about a name that nothing has, if it is in an entity.
fn push_unknown_in(
    alloc: Global,
    out: &mut Vec<u8>,
    bytes: &[u8],
    file: &File,
    span: Span,
) -> Result<(), AllocError>
    ensures { OnOk result (out.new.items ≡ out.old.items ++ spec.unknown_in bytes.now (file_view file.now) span (entity_is (file_view file.now) span.start)) }
{
    match entity_at(alloc, file, span.start)? {
        Some(entity) => push_unknown_of(alloc, out, bytes, file, span, entity),
        None => Ok(()),
    }
}

// Appends the lines about a name that nothing has, in an entity with these members.
fn push_unknown_with(
    alloc: Global,
    out: &mut Vec<u8>,
    bytes: &[u8],
    file: &File,
    span: Span,
    entity: &Entity,
    members: &[Member],
) -> Result<(), AllocError>
    ensures { OnOk result (out.new.items ≡ out.old.items ++ lines.unknown_lines bytes.now (file_view file.now) span (entity_view entity.now) (members_view members.now) (method_is (entity_view entity.now) span.start)) }
{
    let method = method_at(alloc, entity, span.start)?;
    push_unknown_lines(alloc, out, bytes, file, span, entity, members, method)
}

// Appends the lines about a name that nothing has, in an entity.
#[tactic(auto, unfolding(crate::specs::Rows::members_at))]
fn push_unknown_of(
    alloc: Global,
    out: &mut Vec<u8>,
    bytes: &[u8],
    file: &File,
    span: Span,
    entity: &Entity,
) -> Result<(), AllocError>
    ensures { OnOk result (out.new.items ≡ out.old.items ++ spec.unknown_in bytes.now (file_view file.now) span (Some (entity_view entity.now))) }
{
    let rows = list_rows(alloc, file)?;
    let place = place_at(alloc, file, span.start)?;
    match last_row(&rows, place) {
        Some(row) => push_unknown_with(alloc, out, bytes, file, span, entity, row.as_slice()),
        None => push_unknown_with(alloc, out, bytes, file, span, entity, &[]),
    }
}

// Appends the lines about a name that is taken, if it is in an entity.
fn push_double_in(
    alloc: Global,
    out: &mut Vec<u8>,
    bytes: &[u8],
    file: &File,
    span: Span,
) -> Result<(), AllocError>
    ensures { OnOk result (out.new.items ≡ out.old.items ++ spec.double_in bytes.now (file_view file.now) span (entity_is (file_view file.now) span.start)) }
{
    match entity_at(alloc, file, span.start)? {
        Some(entity) => push_double_of(alloc, out, bytes, file, span, entity),
        None => Ok(()),
    }
}

// Appends the lines about a name that is taken, in an entity.
fn push_double_of(
    alloc: Global,
    out: &mut Vec<u8>,
    bytes: &[u8],
    file: &File,
    span: Span,
    entity: &Entity,
) -> Result<(), AllocError>
    ensures { OnOk result (out.new.items ≡ out.old.items ++ spec.double_in bytes.now (file_view file.now) span (Some (entity_view entity.now))) }
{
    let method = method_at(alloc, entity, span.start)?;
    push_double_lines(alloc, out, bytes, file, span, entity, method)
}

// Appends the explanation of a fault.
fn push_names_text(
    alloc: Global,
    out: &mut Vec<u8>,
    name: &str,
    bytes: &[u8],
    file: &File,
    fault: NameFault,
) -> Result<(), AllocError>
    ensures { OnOk result (out.new.items ≡ out.old.items ++ spec.names_text name.now bytes.now (file_view file.now) fault) }
{
    match fault {
        NameFault::Double(span) => {
            push_head(alloc, out, name, bytes, span, "name twice")?;
            push_double_in(alloc, out, bytes, file, span)
        }
        NameFault::Unknown(span) => {
            push_head(alloc, out, name, bytes, span, "name unknown")?;
            push_unknown_in(alloc, out, bytes, file, span)
        }
        NameFault::NoMain => push_no_main(out, name),
        NameFault::BadMain(span) => {
            push_head(alloc, out, name, bytes, span, "Main is of another form")?;
            push_main_lines(out)
        }
        NameFault::Cycle(span) => {
            push_head(alloc, out, name, bytes, span, "trait in a cycle")?;
            push_cycle_in(alloc, out, bytes, file, span)
        }
        NameFault::TooMany(_, _) | NameFault::Memory => Ok(()),
    }
}

/// The explanation of a source with this name and these bytes, whose tree has this fault of its names. For a limit that
/// is passed, or if memory ran out, there is none, and the text is empty.
pub fn explain_names(
    alloc: Global,
    name: &str,
    bytes: &[u8],
    file: &File,
    fault: NameFault,
) -> Result<List<u8>, AllocError>
    ensures { IfOk result (λ text. text ≡ spec.names_text name.now bytes.now (file_view file.now) fault) }
{
    let mut text = Vec::new(alloc);
    push_names_text(alloc, &mut text, name, bytes, file, fault)?;
    Ok(List::from_vec(text))
}
