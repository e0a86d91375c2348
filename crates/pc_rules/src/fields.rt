//! Rules for reading and writing fields.
ghost use Rattle.std.specs.Prelude.{◌≡◌};
ghost use Rattle.pc_valid.specs.Words.{place as place_of};
ghost use Rattle.pc_rules.specs.Fields as spec;

use crate::children::Children;
use crate::parts::{
    constructs, full, goes_to, last_child, last_note, one_type, says_of, through_notes, two_notes,
    two_types,
};
use crate::said::Said;
use pc_caps::{Cap, Form, may_write, taken, view};
use pc_core::{Core, FieldInfo, Node, NodeKind};
use pc_masks::Mask;

// A field of an entity by its name, with its index.
fn field_of(core: &Core, entity: u32, name: u32) -> Option<(u32, FieldInfo)>
    ensures { result ≡ spec.field_of core.now entity name }
{
    let at = core.field(entity, name)?;
    let found = core.entity_at(entity)?;
    let field = found.fields.get(at as usize)?;
    Some((at, *field))
}

// A field of the own entity.
fn own_field(core: &Core, node: &Node, name: u32) -> Option<(u32, FieldInfo)>
    ensures { result ≡ spec.own_field core.now node.now name }
{
    let method = core.method_at(node.method)?;
    field_of(core, method.entity, name)
}

// A field's entity and capability.
fn place(field: FieldInfo) -> (u32, Cap)
    ensures { result ≡ place_of field }
{
    (field.entity, field.cap)
}

fn is_this(kind: &NodeKind) -> bool
    ensures { result ≡ spec.is_this kind.now }
{
    matches!(kind, NodeKind::This)
}

// The set mask of a node's last child, if that is `this`.
fn own_set(core: &Core, numbers: &[u32], children: &Children) -> Option<Mask>
    ensures { result ≡ spec.own_set core.now numbers.now children.now }
{
    let last = last_child(numbers)?;
    let origin = core.node_at(last)?;
    let note = last_note(children)?;
    if is_this(&origin.kind) {
        Some(note.set_before)
    } else {
        None
    }
}

fn lacks_fields(core: &Core, entity: u32, set: Option<Mask>) -> bool
    ensures { result ≡ spec.lacks_fields core.now entity set }
{
    match set {
        None => false,
        Some(set) => !full(core, entity, set),
    }
}

// Whether the node is in a constructor that has not set all fields yet.
fn incomplete(core: &Core, children: &Children, node: &Node) -> bool
    ensures { result ≡ spec.incomplete core.now children.now node.now }
{
    match core.method_at(node.method) {
        None => false,
        Some(method) => constructs(method.kind)
            && node.depth == 0
            && lacks_fields(
                core,
                method.entity,
                own_set(core, node.children.as_slice(), children),
            ),
    }
}

// The type of a field at an origin of this type.
fn field_type(core: &Core, origin: (u32, Form), name: u32) -> Option<(u32, Form)>
    ensures { result ≡ spec.field_type core.now origin name }
{
    let field = field_of(core, origin.0, name)?;
    let seen = view(origin.1, field.1.cap)?;
    Some((field.1.entity, seen))
}

fn read_says(core: &Core, children: &Children, name: u32, masks: (Mask, Mask)) -> Option<Said>
    ensures { result ≡ spec.read_says core.now children.now name masks }
{
    let origin = one_type(children)?;
    let ty = field_type(core, origin, name)?;
    let reached = through_notes(children, masks)?;
    Some(says_of(Some(ty), reached))
}

// Reading a field.
pub(crate) fn get_says(
    core: &Core,
    children: &Children,
    node: &Node,
    name: u32,
    masks: (Mask, Mask),
) -> Option<Said>
    ensures { result ≡ spec.get_says core.now children.now node.now name masks }
{
    if incomplete(core, children, node) {
        None
    } else {
        read_says(core, children, name, masks)
    }
}

fn own_read_says(
    core: &Core,
    children: &Children,
    node: &Node,
    name: u32,
    masks: (Mask, Mask),
) -> Option<Said>
    ensures { result ≡ spec.own_read_says core.now children.now node.now name masks }
{
    let field = own_field(core, node, name)?;
    let seen = view(Form::Ref, field.1.cap)?;
    let reached = through_notes(children, masks)?;
    if reached.1.has(field.0) {
        Some(says_of(Some((field.1.entity, seen)), reached))
    } else {
        None
    }
}

// Reading a field of `this` before all fields are set.
pub(crate) fn getown_says(
    core: &Core,
    children: &Children,
    node: &Node,
    name: u32,
    masks: (Mask, Mask),
) -> Option<Said>
    ensures { result ≡ spec.getown_says core.now children.now node.now name masks }
{
    if incomplete(core, children, node) {
        own_read_says(core, children, node, name, masks)
    } else {
        None
    }
}

// Whether the value may be written into this field of the origin.
fn writes(core: &Core, value: (u32, Form), origin: Form, field: FieldInfo) -> bool
    ensures { result ≡ spec.writes core.now value origin field }
{
    !field.fixed && goes_to(core, value, place(field)) && may_write(origin, value.1, field.cap)
}

// The field of the origin that is written.
fn written_field(
    core: &Core,
    value: (u32, Form),
    origin: (u32, Form),
    name: u32,
) -> Option<FieldInfo>
    ensures { result ≡ spec.written_field core.now value origin name }
{
    let field = field_of(core, origin.0, name)?;
    if writes(core, value, origin.1, field.1) {
        Some(field.1)
    } else {
        None
    }
}

// The type of its old value.
fn old_type(core: &Core, value: (u32, Form), origin: (u32, Form), name: u32) -> Option<(u32, Form)>
    ensures { result ≡ spec.old_type core.now value origin name }
{
    let field = written_field(core, value, origin, name)?;
    let old = taken(origin.1, field.cap)?;
    Some((field.entity, old))
}

fn write_says(core: &Core, children: &Children, name: u32, masks: (Mask, Mask)) -> Option<Said>
    ensures { result ≡ spec.write_says core.now children.now name masks }
{
    let types = two_types(children)?;
    let ty = old_type(core, types.0, types.1, name)?;
    let reached = through_notes(children, masks)?;
    Some(says_of(Some(ty), reached))
}

// Writing a field.
pub(crate) fn put_says(
    core: &Core,
    children: &Children,
    node: &Node,
    name: u32,
    masks: (Mask, Mask),
) -> Option<Said>
    ensures { result ≡ spec.put_says core.now children.now node.now name masks }
{
    if incomplete(core, children, node) {
        None
    } else {
        write_says(core, children, name, masks)
    }
}

// The type of the value to be written.
fn value_type(children: &Children) -> Option<(u32, Form)>
    ensures { result ≡ spec.value_type children.now }
{
    let both = two_notes(children)?;
    both.0.ty
}

// The old value of an own field, if it is set.
fn own_old(field: (u32, FieldInfo), set: Mask) -> Option<(u32, Form)>
    ensures { result ≡ spec.own_old field set }
{
    let old = taken(Form::Ref, field.1.cap)?;
    if set.has(field.0) {
        Some((field.1.entity, old))
    } else {
        None
    }
}

// Whether the value may be written into this field of the own entity.
fn own_writes(core: &Core, value: (u32, Form), field: (u32, FieldInfo), set: Mask) -> bool
    ensures { result ≡ spec.own_writes core.now value field set }
{
    (!field.1.fixed || !set.has(field.0)) && goes_to(core, value, place(field.1))
}

fn own_write_says(
    core: &Core,
    children: &Children,
    node: &Node,
    name: u32,
    masks: (Mask, Mask),
) -> Option<Said>
    ensures { result ≡ spec.own_write_says core.now children.now node.now name masks }
{
    let field = own_field(core, node, name)?;
    let value = value_type(children)?;
    let reached = through_notes(children, masks)?;
    if own_writes(core, value, field, reached.1) {
        Some(says_of(
            own_old(field, reached.1),
            (reached.0, reached.1.with(field.0)),
        ))
    } else {
        None
    }
}

// Writing a field of `this` before all fields are set.
pub(crate) fn putown_says(
    core: &Core,
    children: &Children,
    node: &Node,
    name: u32,
    masks: (Mask, Mask),
) -> Option<Said>
    ensures { result ≡ spec.putown_says core.now children.now node.now name masks }
{
    if incomplete(core, children, node) {
        own_write_says(core, children, node, name, masks)
    } else {
        None
    }
}
