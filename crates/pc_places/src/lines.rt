//! A line of each kind.
ghost use Rattle.std.specs.Prelude.{◌≡◌, ◌++◌, ◌-◌, OnOk, count_by};
ghost use Rattle.pc_base.specs.Lists.{Ascends};
ghost use Rattle.pc_places.specs.Names as names;
ghost use Rattle.pc_places.specs.Text as spec;
ghost use Rattle.pc_text_order.specs.Laws.{starts};

use crate::kinds::{push_kind, push_name, push_number};
use crate::locals::slot_place;
use crate::words::{entity_word, field_word, method_word, slot_word};
use pc_base::Span;
use pc_caps::cap_name;
use pc_core::{Core, EntityDef, FieldInfo, Method, Node, Slot};
use pc_token::Token;
use std::alloc::{AllocError, Global};

/// Appends the first line.
pub fn push_head(
    alloc: Global,
    text: &mut Vec<u8>,
    core: &Core,
    fields: usize,
) -> Result<(), AllocError>
    ensures { OnOk result (text.new.items ≡ text.old.items ++ spec.head_of core.now fields) }
{
    let entities = core.entities().len();
    let methods = core.methods().len();
    let slots = core.slots().len();
    let nodes = core.nodes().len();
    let line = format!(in alloc; "rcap-places 1 {entities} {fields} {methods} {slots} {nodes}\n")?;
    text.extend_from_slice(line.as_bytes())
}

// Appends a place, with a blank after it.
fn push_place(alloc: Global, text: &mut Vec<u8>, place: Span) -> Result<(), AllocError>
    ensures { OnOk result (text.new.items ≡ text.old.items ++ spec.place_text place) }
{
    let words = format!(in alloc; "{} {} ", place.start, place.end)?;
    text.extend_from_slice(words.as_bytes())
}

/// Appends the line of an entity.
pub fn push_entity(alloc: Global, text: &mut Vec<u8>, entity: &EntityDef) -> Result<(), AllocError>
    ensures { OnOk result (text.new.items ≡ text.old.items ++ spec.entity_line entity.now) }
{
    let kind = entity_word(entity.kind);
    let cap = cap_name(entity.cap);
    let words = format!(in alloc; "e {kind} {cap} ")?;
    text.extend_from_slice(words.as_bytes())?;
    push_place(alloc, text, entity.span)?;
    text.extend_from_slice(entity.name.as_slice())?;
    text.extend_from_slice(b"\n")
}

// Appends what comes before the name of a field.
fn push_field_words(
    alloc: Global,
    text: &mut Vec<u8>,
    field: (u32, FieldInfo),
) -> Result<(), AllocError>
    ensures { OnOk result (text.new.items ≡ text.old.items ++ spec.field_line_words field) }
{
    let (owner, field) = field;
    let word = field_word(field.fixed);
    let entity = field.entity;
    let cap = cap_name(field.cap);
    let words = format!(in alloc; "f {owner} {word} {entity} {cap} ")?;
    text.extend_from_slice(words.as_bytes())
}

/// Appends the line of a field, which is given with the number of its entity.
pub fn push_field(
    alloc: Global,
    text: &mut Vec<u8>,
    core: &Core,
    field: (u32, FieldInfo),
) -> Result<(), AllocError>
    ensures { OnOk result (text.new.items ≡ text.old.items ++ spec.field_line core.now field) }
{
    push_field_words(alloc, text, field)?;
    push_name(text, core, field.1.name)?;
    text.extend_from_slice(b"\n")
}

// How many of these entities have a name that does not start after this byte.
fn count_started(entities: &[EntityDef], place: u32) -> usize
    ensures { result ≡ count_by (names.starts_by place) entities.now }
{
    let mut count: usize = 0;
    for entity in entities {
        if entity.span.start <= place {
            count += 1;
        }
    }
    count
}

// Appends the number of the entity from which a method is taken over, or `-` if it is its own.
fn push_taken(text: &mut Vec<u8>, core: &Core, method: &Method) -> Result<(), AllocError>
    ensures { OnOk result (text.new.items ≡ text.old.items ++ spec.taken_text (names.writer_of core.now method.now) method.now.entity) }
{
    core.formed();
    let writer = count_started(core.entities(), method.span.start).saturating_sub(1) as u32;
    if writer == method.entity {
        text.extend_from_slice(b"-")
    } else {
        push_number(text, writer)
    }
}

// Appends the entity and the kind of a method.
fn push_method_kind(alloc: Global, text: &mut Vec<u8>, method: &Method) -> Result<(), AllocError>
    ensures { OnOk result (text.new.items ≡ text.old.items ++ spec.method_kind method.now) }
{
    let entity = method.entity;
    let kind = method_word(method.kind);
    let words = format!(in alloc; "m {entity} {kind} ")?;
    text.extend_from_slice(words.as_bytes())
}

// Appends the first slot and the first node of a method.
fn push_firsts(alloc: Global, text: &mut Vec<u8>, method: &Method) -> Result<(), AllocError>
    ensures { OnOk result (text.new.items ≡ text.old.items ++ spec.firsts_text method.now) }
{
    let words = format!(in alloc; "{} {} ", method.first_slot, method.first_node)?;
    text.extend_from_slice(words.as_bytes())
}

// Appends a name at the end of its line.
fn push_last_name(text: &mut Vec<u8>, core: &Core, name: u32) -> Result<(), AllocError>
    ensures { OnOk result (text.new.items ≡ text.old.items ++ spec.last_name core.now name) }
{
    text.extend_from_slice(b" ")?;
    push_name(text, core, name)?;
    text.extend_from_slice(b"\n")
}

/// Appends the line of a method.
pub fn push_method(
    alloc: Global,
    text: &mut Vec<u8>,
    core: &Core,
    method: &Method,
) -> Result<(), AllocError>
    ensures { OnOk result (text.new.items ≡ text.old.items ++ spec.method_line core.now method.now) }
{
    push_method_kind(alloc, text, method)?;
    push_place(alloc, text, method.span)?;
    push_firsts(alloc, text, method)?;
    push_taken(text, core, method)?;
    push_last_name(text, core, method.name)
}

// The bytes of the source at a place.
fn text_at(source: &[u8], place: Span) -> &[u8]
    ensures { result.now ≡ names.source_text_at source.now place }
{
    let (start, end) = (place.start as usize, place.end as usize);
    if start <= end && end <= source.len() {
        &source[start..end]
    } else {
        &[]
    }
}

// Appends a span and the text of the source there, or that there is none.
fn push_named_place(
    alloc: Global,
    text: &mut Vec<u8>,
    source: &[u8],
    place: Option<Span>,
) -> Result<(), AllocError>
    ensures { OnOk result (text.new.items ≡ text.old.items ++ spec.named_place source.now place) }
{
    match place {
        None => text.extend_from_slice(b"0 0 -"),
        Some(place) => {
            push_place(alloc, text, place)?;
            text.extend_from_slice(text_at(source, place))
        }
    }
}

/// Appends the line of the slot with this number.
pub fn push_slot(
    alloc: Global,
    text: &mut Vec<u8>,
    core: &Core,
    tokens: &[Token],
    source: &[u8],
    number: u32,
    slot: Slot,
) -> Result<(), AllocError>
    requires { Ascends (starts tokens.now) }
    ensures { OnOk result (text.new.items ≡ text.old.items ++ spec.places_slot_line core.now tokens.now source.now number slot) }
{
    let depth = slot.depth;
    let kind = slot_word(slot.kind);
    let words = format!(in alloc; "s {depth} {kind} ")?;
    text.extend_from_slice(words.as_bytes())?;
    push_named_place(alloc, text, source, slot_place(core, tokens, number, slot))?;
    text.extend_from_slice(b"\n")
}

// Appends numbers, each after a blank.
fn push_numbers(text: &mut Vec<u8>, numbers: &[u32]) -> Result<(), AllocError>
    ensures { OnOk result (text.new.items ≡ text.old.items ++ spec.numbers_text numbers.now) }
{
    for number in numbers {
        text.push(b' ')?;
        push_number(text, *number)?;
    }
    Ok(())
}

// Appends the method, the depth and the place of a node.
fn push_node_words(alloc: Global, text: &mut Vec<u8>, node: &Node) -> Result<(), AllocError>
    ensures { OnOk result (text.new.items ≡ text.old.items ++ spec.node_words node.now) }
{
    let (method, depth) = (node.method, node.depth);
    let (start, end) = (node.span.start, node.span.end);
    let words = format!(in alloc; " {method} {depth} {start} {end}")?;
    text.extend_from_slice(words.as_bytes())
}

/// Appends the line of a node.
pub fn push_node(
    alloc: Global,
    text: &mut Vec<u8>,
    core: &Core,
    node: &Node,
) -> Result<(), AllocError>
    ensures { OnOk result (text.new.items ≡ text.old.items ++ spec.places_node_line core.now node.now) }
{
    text.extend_from_slice(b"n ")?;
    push_kind(text, core, &node.kind)?;
    push_node_words(alloc, text, node)?;
    push_numbers(text, node.children.as_slice())?;
    text.extend_from_slice(b"\n")
}
