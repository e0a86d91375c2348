//! Sentences with gaps, and what fills them.
ghost use Rattle.std.specs.Prelude.{◌≡◌, ◌++◌, OnOk, slice_get};
ghost use Rattle.std.specs.Option.{option_copied};
ghost use Rattle.pc_explain_sentences.specs.Fills as spec;

use crate::goals::{push_found, push_goal};
use crate::stop::Stop;
use crate::texts::{ARE, ARGUMENT, ARGUMENTS, ASSIGN, GAP, IS, USE};
use pc_caps::{Cap, Form, lift};
use pc_core::{Core, Method, Node, NodeKind};
use pc_explain_parts::{child_role, push_role};
use pc_explain_window::{piece_of, push_bytes, push_number, push_piece, push_place};
use pc_explain_words::{
    cap_word, entity_name, form_word, name_text, push_entity, push_fitting, push_method_name,
    push_takes, push_taking, push_type, push_with_article,
};
use std::alloc::{AllocError, Global};

/// What fills a gap of a sentence. A part is named by the index of its child.
#[derive(Clone, Copy)]
pub enum Fill {
    /// The words for a part.
    Part(usize),
    /// The form of a part.
    PartForm(usize),
    /// The form of a part, with a description.
    PartFound(usize),
    /// The entity of a part.
    PartEntity(usize),
    /// The entity of a part, after `a` or `an`.
    APartEntity(usize),
    /// The type of a part.
    PartType(usize),
    /// The text of a part.
    PartSource(usize),
    /// The place that a part's value goes to.
    PartGoal(usize),
    /// The form that the first part is lifted to.
    LiftedForm,
    /// This form.
    OneForm(Form),
    /// This capability.
    OneCap(Cap),
    /// This capability, after `a` or `an`.
    ACap(Cap),
    /// This capability, if one is written.
    WrittenCap(Option<Cap>),
    /// The forms that fit this capability.
    Fitting(Cap),
    /// Which forms a place with this capability takes.
    Takes(Cap),
    /// The capabilities that take this form.
    Taking(Form),
    /// The entity with this number.
    Entity(u32),
    /// The entity with this number, after `a` or `an`.
    AnEntity(u32),
    /// The field or the method with this name.
    Name(u32),
    /// The field or the method that the node names.
    Named,
    /// The slot with this index of the node's own method.
    Slot(u32),
    /// The capability of that slot.
    SlotCap(u32),
    /// The entity that the node's own method belongs to.
    OwnEntity,
    /// The field with this index of that entity.
    OwnField(u32),
    /// The node's own method.
    OwnMethod,
    /// The receiver capability of that method.
    OwnReceiver,
    /// The method that the node calls, after its entity.
    Method,
    /// The name of that method.
    MethodName,
    /// The type of that method's result, after a blank.
    Result,
    /// The place of the byte at this offset.
    Place(u32),
    /// This number.
    Number(usize),
    /// `argument` or `arguments`.
    ArgumentWord(usize),
    /// `is` or `are`.
    IsOrAre(usize),
    /// `assigned` or `used`.
    UsedWord,
}

// ---- what is left out if there is none

fn push_type_or_none(
    alloc: Global,
    out: &mut Vec<u8>,
    core: &Core,
    ty: Option<(u32, Form)>,
) -> Result<(), AllocError>
    ensures { OnOk result (out.new.items ≡ out.old.items ++ spec.type_or_none core.now ty) }
{
    match ty {
        Some(found) => push_type(alloc, out, core, found),
        None => Ok(()),
    }
}

fn place_cap_or_none(ty: Option<(u32, Cap)>) -> &'static [u8]
    ensures { result.now ≡ spec.place_cap_or_none ty }
{
    match ty {
        Some(found) => cap_word(found.1),
        None => b"",
    }
}

fn optional_cap_text(cap: Option<Cap>) -> &'static [u8]
    ensures { result.now ≡ spec.optional_cap_text cap }
{
    match cap {
        Some(found) => cap_word(found),
        None => b"",
    }
}

fn push_method_or_none(
    alloc: Global,
    out: &mut Vec<u8>,
    core: &Core,
    method: Option<&Method>,
) -> Result<(), AllocError>
    ensures { OnOk result (out.new.items ≡ out.old.items ++ spec.method_or_none core.now (option_copied method.entry)) }
{
    match method {
        Some(found) => push_method_name(alloc, out, core, found),
        None => Ok(()),
    }
}

fn method_name_text<'a>(core: &'a Core, method: Option<&Method>) -> &'a [u8]
    ensures { result.now ≡ spec.method_name_text core.now (option_copied method.entry) }
{
    match method {
        Some(found) => name_text(core, found.name),
        None => b"",
    }
}

fn receiver_word(method: Option<&Method>) -> &'static [u8]
    ensures { result.now ≡ spec.receiver_word (option_copied method.entry) }
{
    match method {
        Some(found) => cap_word(found.receiver),
        None => b"",
    }
}

// Appends the type of a method's result, after a blank.
fn push_result(
    alloc: Global,
    out: &mut Vec<u8>,
    core: &Core,
    method: Option<&Method>,
) -> Result<(), AllocError>
    ensures { OnOk result (out.new.items ≡ out.old.items ++ spec.result_words core.now (option_copied method.entry)) }
{
    match method {
        Some(found) => {
            push_bytes(out, b" ")?;
            push_type(alloc, out, core, found.result)
        }
        None => Ok(()),
    }
}

// The source's text of a node.
fn source_of<'a>(stop: &Stop<'a>, node: Option<&Node>) -> &'a [u8]
    ensures { result.now ≡ spec.source_text_of stop.now (option_copied node.entry) }
{
    match node {
        Some(found) => piece_of(stop.scene().bytes(), found.span),
        None => b"",
    }
}

// ---- words that go by a number, or by the node

fn argument_word(count: usize) -> &'static [u8]
    ensures { result.now ≡ spec.argument_word count }
{
    if count == 1 { ARGUMENT } else { ARGUMENTS }
}

fn is_or_are(count: usize) -> &'static [u8]
    ensures { result.now ≡ spec.is_or_are count }
{
    if count == 1 { IS } else { ARE }
}

fn is_assign(kind: &NodeKind) -> bool
    ensures { result ≡ spec.is_assign kind.now }
{
    matches!(kind, NodeKind::Assign(_))
}

fn used_word(assigned: bool) -> &'static [u8]
    ensures { result.now ≡ spec.used_word assigned }
{
    if assigned { ASSIGN } else { USE }
}

// ---- what fills a gap

#[tactic(auto, unfolding(crate::specs::Fills::fill_text))]
fn push_fill(alloc: Global, out: &mut Vec<u8>, stop: &Stop, fill: Fill) -> Result<(), AllocError>
    ensures { OnOk result (out.new.items ≡ out.old.items ++ spec.fill_text stop.now fill) }
{
    let core = stop.core();
    let node = stop.node();
    match fill {
        Fill::Part(index) => push_role(alloc, out, child_role(node, index)),
        Fill::PartForm(index) => push_bytes(out, form_word(stop.child_form(index))),
        Fill::PartFound(index) => push_found(out, stop, stop.child_form(index)),
        Fill::PartEntity(index) => push_piece(alloc, out, stop.child_entity(index)),
        Fill::APartEntity(index) => push_with_article(alloc, out, stop.child_entity(index)),
        Fill::PartType(index) => push_type_or_none(alloc, out, core, stop.child_type(index)),
        Fill::PartSource(index) => {
            push_piece(alloc, out, source_of(stop, stop.child_node(index)))
        }
        Fill::PartGoal(index) => push_goal(alloc, out, stop, index),
        Fill::LiftedForm => push_bytes(out, form_word(lift(stop.child_form(0)))),
        Fill::OneForm(form) => push_bytes(out, form_word(form)),
        Fill::OneCap(cap) => push_bytes(out, cap_word(cap)),
        Fill::ACap(cap) => push_with_article(alloc, out, cap_word(cap)),
        Fill::WrittenCap(cap) => push_bytes(out, optional_cap_text(cap)),
        Fill::Fitting(cap) => push_fitting(out, cap),
        Fill::Takes(cap) => push_takes(out, cap),
        Fill::Taking(form) => push_taking(out, form),
        Fill::Entity(entity) => push_entity(alloc, out, core, entity),
        Fill::AnEntity(entity) => push_with_article(alloc, out, entity_name(core, entity)),
        Fill::Name(name) => push_piece(alloc, out, name_text(core, name)),
        Fill::Named => push_piece(alloc, out, stop.named()),
        Fill::Slot(slot) => push_piece(alloc, out, stop.own_slot(slot)),
        Fill::SlotCap(slot) => {
            push_bytes(
                out,
                place_cap_or_none(stop.scene().slot_type(node.method, slot)),
            )
        }
        Fill::OwnEntity => push_piece(alloc, out, stop.own_entity()),
        Fill::OwnField(field) => push_piece(alloc, out, stop.own_field(field)),
        Fill::OwnMethod => push_piece(alloc, out, method_name_text(core, stop.own_method())),
        Fill::OwnReceiver => push_bytes(out, receiver_word(stop.own_method())),
        Fill::Method => push_method_or_none(alloc, out, core, stop.method()),
        Fill::MethodName => push_piece(alloc, out, method_name_text(core, stop.method())),
        Fill::Result => push_result(alloc, out, core, stop.method()),
        Fill::Place(offset) => push_place(alloc, out, stop.scene().bytes(), offset),
        Fill::Number(number) => push_number(alloc, out, number as u64),
        Fill::ArgumentWord(count) => push_bytes(out, argument_word(count)),
        Fill::IsOrAre(count) => push_bytes(out, is_or_are(count)),
        Fill::UsedWord => push_bytes(out, used_word(is_assign(&node.kind))),
    }
}

// ---- a sentence

// Appends the fill with this number.
fn push_next(
    alloc: Global,
    out: &mut Vec<u8>,
    stop: &Stop,
    fills: &[Fill],
    next: usize,
) -> Result<(), AllocError>
    ensures { OnOk result (out.new.items ≡ out.old.items ++ spec.optional_fill_text stop.now (slice_get fills.now next)) }
{
    match fills.get(next) {
        Some(fill) => push_fill(alloc, out, stop, *fill),
        None => Ok(()),
    }
}

/// Appends a sentence, with each gap filled by the next of these fills.
#[tactic(auto, unfolding(crate::specs::Fills::said))]
pub fn push_filled(
    alloc: Global,
    out: &mut Vec<u8>,
    stop: &Stop,
    sentence: &[u8],
    fills: &[Fill],
) -> Result<(), AllocError>
    ensures { OnOk result (out.new.items ≡ out.old.items ++ spec.said stop.now sentence.now fills.now) }
{
    let mut next = 0;
    'each: for byte in sentence {
        if *byte == GAP {
            push_next(alloc, out, stop, fills, next)?;
            next += 1;
        } else {
            out.push(*byte)?;
        }
    }
    Ok(())
}
