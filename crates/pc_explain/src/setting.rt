//! The lines about a constructor that leaves a field unset.
ghost use Rattle.std.specs.Prelude.{◌≡◌, ◌++◌, drop, true, IfOk, OnOk};
ghost use Rattle.std.specs.Option.{option_copied};
ghost use Rattle.pc_core.specs.Further.{own_nodes as own_nodes_are};
ghost use Rattle.pc_masks.specs.Masks.{has};
ghost use Rattle.pc_explain_names.specs.Lists.{rest};
ghost use Rattle.pc_explain.specs.Setting as spec;

use crate::known::first_nodes;
use pc_core::{Core, EntityDef, FieldInfo, Method, Node, NodeKind};
use pc_explain_window::{push_bytes, push_number, push_place, push_quoted};
use pc_explain_words::{Scene, name_text, push_method, push_place_type};
use pc_masks::Mask;
use std::alloc::{AllocError, Global};

// How many places of writes are listed at most.
const MOST: usize = 8;

// Whether a node of this kind writes a field with this name.
fn writes_name(name: u32, kind: &NodeKind) -> bool
    ensures { result ≡ spec.writes_name name kind.now }
{
    match kind.field_written() {
        Some(written) => written == name,
        None => false,
    }
}

// Whether the child with this number is `this`.
fn is_own(core: &Core, child: Option<u32>) -> bool
    ensures { result ≡ spec.is_this_node (spec.child_in core.now child) }
{
    match child {
        None => false,
        Some(number) => match core.node_at(number) {
            Some(found) => matches!(found.kind, NodeKind::This),
            None => false,
        },
    }
}

// Whether the node writes the field with this name of `this`.
#[tactic(auto, unfolding(crate::specs::Setting::writes_own))]
fn writes_own(core: &Core, name: u32, node: &Node) -> bool
    ensures { result ≡ spec.writes_own core.now name node.now }
{
    writes_name(name, &node.kind) && is_own(core, node.children.as_slice().get(1).copied())
}

// What is written before a place.
fn before_place(first: bool) -> &'static [u8]
    ensures { result.now ≡ spec.before_place first }
{
    if first {
        b" on every path: it is set only at "
    } else {
        b", "
    }
}

// Where those of these nodes begin that write the field with this name of `this`.
fn writes_of(alloc: Global, core: &Core, name: u32, nodes: &[Node]) -> Result<Vec<u32>, AllocError>
    ensures { IfOk result (λ starts. starts.items ≡ spec.writes_of core.now name nodes.now) }
{
    nodes
        .iter()
        .filter(|node| writes_own(core, name, node))
        .map(|node| node.span.start)
        .collect(alloc)
}

// Appends the place of a write.
#[tactic(auto, unfolding(crate::specs::Setting::write_place))]
fn push_write_place(
    alloc: Global,
    out: &mut Vec<u8>,
    bytes: &[u8],
    first: bool,
    at: u32,
) -> Result<(), AllocError>
    ensures { OnOk result (out.new.items ≡ out.old.items ++ spec.write_place bytes.now first at) }
{
    push_bytes(out, before_place(first))?;
    push_place(alloc, out, bytes, at)
}

// Appends the places of these bytes.
fn push_places_of(
    alloc: Global,
    out: &mut Vec<u8>,
    bytes: &[u8],
    starts: &[u32],
) -> Result<(), AllocError>
    ensures { OnOk result (out.new.items ≡ out.old.items ++ spec.places_of bytes.now true starts.now) }
{
    let mut first = true;
    'starts: for at in starts {
        push_write_place(alloc, out, bytes, first, *at)?;
        first = false;
    }
    Ok(())
}

// Appends how many places are not written.
fn push_rest(alloc: Global, out: &mut Vec<u8>, count: usize) -> Result<(), AllocError>
    ensures { OnOk result (out.new.items ≡ out.old.items ++ rest count) }
{
    if count > MOST {
        push_bytes(out, b" and ")?;
        push_number(alloc, out, (count - MOST) as u64)?;
        push_bytes(out, b" more")?;
    }
    Ok(())
}

// Appends the first eight places, and how many more there are.
#[tactic(auto, unfolding(crate::specs::Setting::write_places))]
fn push_write_places(
    alloc: Global,
    out: &mut Vec<u8>,
    bytes: &[u8],
    starts: &[u32],
) -> Result<(), AllocError>
    ensures { OnOk result (out.new.items ≡ out.old.items ++ spec.write_places bytes.now starts.now) }
{
    push_places_of(alloc, out, bytes, &starts[..MOST.min(starts.len())])?;
    push_rest(alloc, out, starts.len())
}

// The nodes of a method.
fn own_nodes<'a>(core: &'a Core, method: &Method) -> &'a [Node]
    ensures { result.now ≡ own_nodes_are core.now method.now }
{
    let first = method.first_node as usize;
    let end = match method.body {
        None => first,
        Some(body) => body as usize + 1,
    };
    first_nodes(nodes_from(core.nodes(), first), end.saturating_sub(first))
}

// The nodes after the first ones.
fn nodes_from(nodes: &[Node], first: usize) -> &[Node]
    ensures { result.now ≡ drop first nodes.now }
{
    &nodes[first.min(nodes.len())..]
}

// Appends the line about a field that is not set.
#[tactic(auto, unfolding(crate::specs::Setting::unset_part))]
fn push_unset_part(
    alloc: Global,
    out: &mut Vec<u8>,
    scene: &Scene,
    method: &Method,
    field: FieldInfo,
) -> Result<(), AllocError>
    ensures { OnOk result (out.new.items ≡ out.old.items ++ spec.unset_part scene.now method.now field) }
{
    let core = scene.core();
    let starts = writes_of(alloc, core, field.name, own_nodes(core, method))?;
    push_bytes(out, b"part: the field ")?;
    push_quoted(alloc, out, name_text(core, field.name))?;
    push_bytes(out, b", ")?;
    push_place_type(alloc, out, core, (field.entity, field.cap))?;
    push_bytes(out, b", is not set")?;
    push_write_places(alloc, out, scene.bytes(), starts.as_slice())?;
    push_bytes(out, b"\n")
}

// Appends the line about a field, if it is not set.
#[tactic(auto, unfolding(crate::specs::Setting::unset_part_of))]
fn push_part(
    alloc: Global,
    out: &mut Vec<u8>,
    scene: &Scene,
    method: &Method,
    set: bool,
    field: FieldInfo,
) -> Result<(), AllocError>
    ensures { OnOk result (out.new.items ≡ out.old.items ++ spec.unset_part_of scene.now method.now set field) }
{
    if set {
        Ok(())
    } else {
        push_unset_part(alloc, out, scene, method, field)
    }
}

// Whether the field with this index is set.
fn is_set(set: Mask, index: usize) -> bool
    ensures { result ≡ has set index }
{
    match u32::try_from(index) {
        Ok(number) => set.has(number),
        Err(_) => false,
    }
}

// Appends the lines about the fields that are not set.
fn push_unset_parts(
    alloc: Global,
    out: &mut Vec<u8>,
    scene: &Scene,
    method: &Method,
    set: Mask,
    fields: &[FieldInfo],
) -> Result<(), AllocError>
    ensures { OnOk result (out.new.items ≡ out.old.items ++ spec.unset_parts scene.now method.now set 0 fields.now) }
{
    for index in 0..fields.len() {
        let set = is_set(set, index);
        push_part(alloc, out, scene, method, set, fields[index])?;
    }
    Ok(())
}

// The first field that is not set.
fn first_unset(set: Mask, fields: &[FieldInfo]) -> Option<FieldInfo>
    ensures { result ≡ spec.first_unset set 0 fields.now }
{
    for index in 0..fields.len() {
        if !is_set(set, index) {
            return Some(fields[index]);
        }
    }
    None
}

// Appends the name of a field.
#[tactic(auto, unfolding(crate::specs::Setting::quoted_field_name))]
fn push_field_name(
    alloc: Global,
    out: &mut Vec<u8>,
    core: &Core,
    field: Option<FieldInfo>,
) -> Result<(), AllocError>
    ensures { OnOk result (out.new.items ≡ out.old.items ++ spec.quoted_field_name core.now field) }
{
    match field {
        Some(field) => push_quoted(alloc, out, name_text(core, field.name)),
        None => Ok(()),
    }
}

// Appends what to do.
#[tactic(auto, unfolding(crate::specs::Setting::set_hint))]
fn push_set_hint(
    alloc: Global,
    out: &mut Vec<u8>,
    core: &Core,
    field: Option<FieldInfo>,
) -> Result<(), AllocError>
    ensures { OnOk result (out.new.items ≡ out.old.items ++ spec.set_hint core.now field) }
{
    push_bytes(out, b"hint: give ")?;
    push_field_name(alloc, out, core, field)?;
    push_bytes(out, b" an initial value, or set it on every path\n")
}

// Appends the lines about the fields, the rule, and what to do.
#[tactic(auto, unfolding(crate::specs::Setting::field_lines))]
fn push_field_lines(
    alloc: Global,
    out: &mut Vec<u8>,
    scene: &Scene,
    method: &Method,
    set: Mask,
    fields: &[FieldInfo],
) -> Result<(), AllocError>
    ensures { OnOk result (out.new.items ≡ out.old.items ++ spec.field_lines scene.now method.now set fields.now) }
{
    push_unset_parts(alloc, out, scene, method, set, fields)?;
    push_bytes(
        out,
        b"rule constructor: at the end of a constructor every field must be set\n",
    )?;
    push_set_hint(alloc, out, scene.core(), first_unset(set, fields))
}

// The fields of an entity, if it exists.
fn fields_of(entity: Option<&EntityDef>) -> &[FieldInfo]
    ensures { result.now ≡ spec.fields_of (option_copied entity.entry) }
{
    match entity {
        Some(entity) => entity.fields.as_slice(),
        None => &[],
    }
}

// Appends the line about the constructor.
#[tactic(auto, unfolding(crate::specs::Setting::constructor_line))]
fn push_constructor_line(
    alloc: Global,
    out: &mut Vec<u8>,
    scene: &Scene,
    method: &Method,
) -> Result<(), AllocError>
    ensures { OnOk result (out.new.items ≡ out.old.items ++ spec.constructor_line scene.now method.now) }
{
    push_bytes(out, b"node: the constructor ")?;
    push_method(alloc, out, scene, method)?;
    push_bytes(out, b"\n")
}

/// Appends the lines about a constructor that ends with these fields set and others not.
#[tactic(auto, unfolding(crate::specs::Setting::unset_lines))]
pub(crate) fn push_unset_lines(
    alloc: Global,
    out: &mut Vec<u8>,
    scene: &Scene,
    method: &Method,
    set: Mask,
) -> Result<(), AllocError>
    ensures { OnOk result (out.new.items ≡ out.old.items ++ spec.unset_lines scene.now method.now set) }
{
    let fields = fields_of(scene.core().entity_at(method.entity));
    push_constructor_line(alloc, out, scene, method)?;
    push_field_lines(alloc, out, scene, method, set, fields)
}
