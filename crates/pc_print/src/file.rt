//! Entities and files, each appended to a text.
ghost use Rattle.std.specs.Prelude.{◌≡◌, ◌++◌, map, OnOk, IfOk};
ghost use Rattle.pc_print.specs.Parts as parts;
ghost use Rattle.pc_print.specs.Printing as text;
ghost use Rattle.pc_token.specs.Words.{word_text};
ghost use Rattle.pc_grammar.specs.Spells.{entity_word};
ghost use Rattle.pc_tree.specs.View.{entity_view, file_view};

use crate::leaves::{push_between, push_cap};
use crate::member::{push_fields, push_methods};
use pc_base::List;
use pc_tree::{Entity, EntityKind, File, Name};
use std::alloc::{AllocError, Global};

// The names after `is`.
fn push_names(out: &mut Vec<u8>, names: &[Name]) -> Result<(), AllocError>
    ensures { OnOk result (out.new.items ≡ out.old.items ++ parts.printed_names names.now) }
{
    let mut first = true;
    for name in names {
        push_between(out, first, b" & ")?;
        out.extend_from_slice(name.text.as_slice())?;
        first = false;
    }
    Ok(())
}

// What follows an entity's name, if it has an `is` list.
fn push_provides(out: &mut Vec<u8>, names: &[Name]) -> Result<(), AllocError>
    ensures { OnOk result (out.new.items ≡ out.old.items ++ text.printed_provides names.now) }
{
    if names.is_empty() {
        Ok(())
    } else if names.len() == 1 {
        out.extend_from_slice(b" is ")?;
        push_names(out, names)
    } else {
        out.extend_from_slice(b" is (")?;
        push_names(out, names)?;
        out.extend_from_slice(b")")
    }
}

fn entity_text(kind: EntityKind) -> &'static [u8]
    ensures { result.now ≡ word_text (entity_word kind) }
{
    match kind {
        EntityKind::Class => b"class",
        EntityKind::Actor => b"actor",
        EntityKind::Primitive => b"primitive",
        EntityKind::Trait => b"trait",
        EntityKind::Interface => b"interface",
    }
}

fn push_entity(alloc: Global, out: &mut Vec<u8>, entity: &Entity) -> Result<(), AllocError>
    ensures { OnOk result (out.new.items ≡ out.old.items ++ text.printed_entity (entity_view entity.now)) }
{
    out.extend_from_slice(entity_text(entity.kind))?;
    push_cap(out, entity.cap)?;
    out.extend_from_slice(b" ")?;
    out.extend_from_slice(entity.name.text.as_slice())?;
    push_provides(out, entity.provides.as_slice())?;
    push_fields(alloc, out, entity.fields.as_slice())?;
    push_methods(alloc, out, entity.methods.as_slice())
}

fn push_entities(alloc: Global, out: &mut Vec<u8>, entities: &[Entity]) -> Result<(), AllocError>
    ensures { OnOk result (out.new.items ≡ out.old.items ++ parts.printed_entities (map entity_view entities.now)) }
{
    let mut first = true;
    for entity in entities {
        push_between(out, first, b"\n\n")?;
        push_entity(alloc, out, entity)?;
        first = false;
    }
    Ok(())
}

/// The printed text of a file, whose tokens spell the file again up to spans (`printed_files_are_read`).
#[tactic(auto, unfolding(crate::specs::Printing::printed))]
pub fn print(alloc: Global, file: &File) -> Result<List<u8>, AllocError>
    ensures { IfOk result (λ bytes. bytes ≡ text.printed (file_view file.now)) }
{
    let mut out: Vec<u8> = Vec::new(alloc);
    push_entities(alloc, &mut out, file.entities.as_slice())?;
    out.extend_from_slice(b"\n")?;
    Ok(List::from_vec(out))
}
