//! The whole text.
ghost use Rattle.std.specs.Prelude.{◌≡◌, ◌++◌, ◌<◌, ◌^◌, ◌≤◌, IfOk, OnOk, length, map};
ghost use Rattle.pc_lex.specs.Pieces.{bytes_limit};
ghost use Rattle.pc_base.specs.Lists.{Ascends};
ghost use Rattle.pc_places.specs.Text as spec;
ghost use Rattle.pc_text_order.specs.Laws.{starts};

use crate::lines::{push_entity, push_field, push_head, push_method, push_node, push_slot};
use crate::tokens::tokens_of;
use pc_base::List;
use pc_core::{Core, EntityDef, FieldInfo};
use pc_text_order::tokens_are_in_order;
use pc_token::Token;
use std::alloc::{AllocError, Global};

// Appends the fields of an entity to those of others, each with the entity's number.
fn add_fields(
    all: &mut List<(u32, FieldInfo)>,
    entity: u32,
    fields: &[FieldInfo],
) -> Result<(), AllocError>
    ensures { OnOk result (all.new ≡ all.old ++ map (λ f. (entity, f)) fields.now) }
{
    for field in fields {
        all.push((entity, *field))?;
    }
    Ok(())
}

// The fields of these entities, each with its entity's number.
fn list_fields(alloc: Global, entities: &[EntityDef]) -> Result<List<(u32, FieldInfo)>, AllocError>
    requires { length entities.now < 2 ^ 32 }
    ensures { IfOk result (λ all. all ≡ spec.fields_from 0 entities.now) }
{
    let mut all = List::new(alloc);
    let mut number: u32 = 0;
    for entity in entities {
        add_fields(&mut all, number, entity.fields.as_slice())?;
        number += 1;
    }
    Ok(all)
}

// Appends the lines of the entities.
fn push_entities(alloc: Global, text: &mut Vec<u8>, core: &Core) -> Result<(), AllocError>
    ensures { OnOk result (text.new.items ≡ text.old.items ++ spec.entities_text core.now.entities) }
{
    for entity in core.entities() {
        push_entity(alloc, text, entity)?;
    }
    Ok(())
}

// Appends the lines of fields.
fn push_fields(
    alloc: Global,
    text: &mut Vec<u8>,
    core: &Core,
    fields: &[(u32, FieldInfo)],
) -> Result<(), AllocError>
    ensures { OnOk result (text.new.items ≡ text.old.items ++ spec.fields_text core.now fields.now) }
{
    for field in fields {
        push_field(alloc, text, core, *field)?;
    }
    Ok(())
}

// Appends the lines of the methods.
fn push_methods(alloc: Global, text: &mut Vec<u8>, core: &Core) -> Result<(), AllocError>
    ensures { OnOk result (text.new.items ≡ text.old.items ++ spec.methods_text core.now core.now.methods) }
{
    for method in core.methods() {
        push_method(alloc, text, core, method)?;
    }
    Ok(())
}

// Appends the lines of the slots.
fn push_slots(
    alloc: Global,
    text: &mut Vec<u8>,
    core: &Core,
    tokens: &[Token],
    source: &[u8],
) -> Result<(), AllocError>
    requires { Ascends (starts tokens.now) }
    ensures { OnOk result (text.new.items ≡ text.old.items ++ spec.slots_text core.now tokens.now source.now 0 core.now.slots) }
{
    core.formed();
    let mut number: u32 = 0;
    for slot in core.slots() {
        push_slot(alloc, text, core, tokens, source, number, *slot)?;
        number += 1;
    }
    Ok(())
}

// Appends the lines of the nodes.
fn push_nodes(alloc: Global, text: &mut Vec<u8>, core: &Core) -> Result<(), AllocError>
    ensures { OnOk result (text.new.items ≡ text.old.items ++ spec.nodes_text core.now core.now.nodes) }
{
    for node in core.nodes() {
        push_node(alloc, text, core, node)?;
    }
    Ok(())
}

// The text of the places of a core, which is that of this source with these tokens.
fn write_all(
    alloc: Global,
    source: &[u8],
    tokens: &[Token],
    core: &Core,
) -> Result<List<u8>, AllocError>
    requires { Ascends (starts tokens.now) }
    ensures { IfOk result (λ text. text ≡ spec.places_text source.now tokens.now core.now) }
{
    core.formed();
    let fields = list_fields(alloc, core.entities())?;
    let mut text: Vec<u8> = Vec::new(alloc);
    push_head(alloc, &mut text, core, fields.len())?;
    push_entities(alloc, &mut text, core)?;
    push_fields(alloc, &mut text, core, fields.as_slice())?;
    push_methods(alloc, &mut text, core)?;
    push_slots(alloc, &mut text, core, tokens, source)?;
    push_nodes(alloc, &mut text, core)?;
    Ok(List::from_vec(text))
}

/// The text of the places of a core, which is that of this source of at most 1,048,576 bytes, which has tokens: a line
/// with the counts, and then one for each entity, field, method, slot and node, in the order of the core.
pub fn write_places(alloc: Global, source: &[u8], core: &Core) -> Result<List<u8>, AllocError>
    requires short { length source.now ≤ bytes_limit }
    requires has_tokens { spec.HasTokens source.now }
    ensures { IfOk result (spec.IsPlacesText source.now core.now) }
{
    tokens_are_in_order();
    let tokens = tokens_of(alloc, source)?;
    write_all(alloc, source, tokens.as_slice(), core)
}
