//! The whole explanation.
ghost use Rattle.std.specs.Prelude.{◌≡◌, ◌++◌, [], length, map, IfOk, OnOk, slice_get};
ghost use Rattle.pc_check.specs.Faults.{InferenceLeavesUnset, RefusesCore, StopsAt};
ghost use Rattle.pc_refusals.specs.FaultLines.{decl_text};
ghost use Rattle.pc_rules.specs.Parts.{notes_of as notes_are};
ghost use Rattle.pc_explain.specs.Explanation as spec;
ghost use Rattle.pc_explain.specs.Explanation.{IsExplanation};
ghost use Rattle.pc_explain.specs.Known.{known_slots as known_are};
ghost use Rattle.pc_explain.specs.RuleLines.{rule_lines};

use crate::declarations::push_declaration_lines;
use crate::known::{known_slots, with_node};
use crate::rule_lines::{Reported, push_rule_lines};
use crate::setting::push_unset_lines;
use pc_ann::{Ann, Note, Rule};
use pc_base::{List, Span};
use pc_caps::Cap;
use pc_check::CheckFault;
use pc_core::{Core, Method, Node};
use pc_explain_conditions::{Reason, Site, reasons};
use pc_explain_hints::push_hint;
use pc_explain_parts::{push_node_line, push_part_lines};
use pc_explain_sentences::{Stop, push_sentence};
use pc_explain_window::push_head;
use pc_explain_words::Scene;
use pc_masks::Mask;
use pc_sub::DeclFault;
use pc_token::Token;
use std::alloc::{AllocError, Global};

// What an explanation looks at: a source, its core, and what is known of its first nodes.
#[tactic(auto, unfolding(crate::specs::Explanation::scene_of))]
fn scene_of<'a>(
    bytes: &'a [u8],
    tokens: &'a [Token],
    core: &'a Core,
    slots: &'a [(u32, Cap)],
    notes: &'a [Note],
) -> Scene<'a>
    requires { slots.now ≡ known_are core.now notes.now (length notes.now) }
    ensures { result ≡ spec.scene_of bytes.now tokens.now core.now notes.now }
{
    Scene::new(bytes, tokens, core, slots, notes)
}

const NO_SPAN: Span = Span { start: 0, end: 0 };

// The place of an entity's name.
fn entity_span(core: &Core, entity: u32) -> Span
    ensures { result ≡ spec.entity_span (slice_get core.now.entities entity) }
{
    match core.entity_at(entity) {
        Some(found) => found.span,
        None => NO_SPAN,
    }
}

// The place of a method's name.
fn method_span(core: &Core, method: u32) -> Span
    ensures { result ≡ spec.method_span (slice_get core.now.methods method) }
{
    match core.method_at(method) {
        Some(found) => found.span,
        None => NO_SPAN,
    }
}

// The place of the name of a method's parameter.
fn param_span(method: &Method, parameter: u32) -> Span
    ensures { result ≡ spec.param_span (slice_get method.now.params parameter) }
{
    match method.params.get(parameter as usize) {
        Some(found) => found.span,
        None => NO_SPAN,
    }
}

// The same, by the method's number.
fn own_param_span(core: &Core, method: u32, parameter: u32) -> Span
    ensures { result ≡ spec.own_param_span (slice_get core.now.methods method) parameter }
{
    match core.method_at(method) {
        Some(found) => param_span(found, parameter),
        None => NO_SPAN,
    }
}

// Where a declaration that fails is named.
#[tactic(auto, unfolding(crate::specs::Explanation::decl_span))]
fn declaration_span(core: &Core, fault: DeclFault) -> Span
    ensures { result ≡ spec.decl_span core.now fault }
{
    match fault {
        DeclFault::NotSendable { method, parameter } => own_param_span(core, method, parameter),
        DeclFault::MissingMethod { entity, .. } => entity_span(core, entity),
        DeclFault::Mismatch { method, .. } => method_span(core, method),
    }
}

// The words for a declaration that fails.
fn declaration_words(fault: DeclFault) -> &'static str
    ensures { result.now ≡ decl_text fault }
{
    match fault {
        DeclFault::NotSendable { .. } => "parameter not sendable",
        DeclFault::MissingMethod { .. } => "method missing",
        DeclFault::Mismatch { .. } => "method does not fit",
    }
}

// Appends the explanation of a declaration that fails.
#[tactic(auto, unfolding(crate::specs::Explanation::declaration_text))]
fn push_declaration(
    alloc: Global,
    out: &mut Vec<u8>,
    name: &str,
    scene: &Scene,
    fault: DeclFault,
) -> Result<(), AllocError>
    ensures { OnOk result (out.new.items ≡ out.old.items ++ spec.declaration_text name.now scene.now fault) }
{
    let span = declaration_span(scene.core(), fault);
    push_head(
        alloc,
        out,
        name,
        scene.bytes(),
        span,
        declaration_words(fault),
    )?;
    push_declaration_lines(alloc, out, scene, fault)
}

// The note of a node.
fn note_at(notes: &[Note], node: u32) -> Option<Note>
    ensures { result ≡ slice_get notes.now node }
{
    notes.get(node as usize).copied()
}

// The notes of these nodes, if each has one.
fn notes_of(
    alloc: Global,
    notes: &[Note],
    children: &[u32],
) -> Result<Option<List<Note>>, AllocError>
    ensures { IfOk result (λ found. found ≡ notes_are notes.now children.now) }
{
    let mut found = List::new(alloc);
    for child in children {
        match note_at(notes, *child) {
            Some(note) => found.push(note)?,
            None => return Ok(None),
        }
    }
    Ok(Some(found))
}

// Why no rule holds at a node, given the notes of its children, if each has one.
fn reasons_by(
    alloc: Global,
    core: &Core,
    slots: &[(u32, Cap)],
    children: Option<List<Note>>,
    node: &Node,
    masks: (Mask, Mask),
) -> Result<List<Reason>, AllocError>
    ensures { IfOk result (λ found. found ≡ spec.reasons_by core.now slots.now children node.now masks) }
{
    match children {
        None => Ok(List::new(alloc)),
        Some(notes) => {
            let site = Site {
                core,
                slots,
                children: notes.as_slice(),
                node,
                live: masks.0,
                set: masks.1,
            };
            reasons(alloc, &site)
        }
    }
}

// Why no rule holds at a node.
#[tactic(auto, using(crate::proofs::Reasons::reasons_are, crate::proofs::Reasons::ok_same))]
fn reasons_of(
    alloc: Global,
    core: &Core,
    ann: &Ann,
    node: &Node,
    masks: (Mask, Mask),
) -> Result<List<Reason>, AllocError>
    requires { length ann.now.slots ≡ length core.now.slots }
    ensures { IfOk result (λ found. found ≡ spec.reasons_of core.now ann.now node.now masks) }
{
    let children = notes_of(alloc, ann.notes.as_slice(), node.children.as_slice())?;
    let slots = with_node(alloc, core, ann, node)?;
    reasons_by(alloc, core, slots.as_slice(), children, node, masks)
}

fn is_own_rule(rule: Rule) -> bool
    ensures { result ≡ spec.is_own_rule rule }
{
    match rule {
        Rule::GetOwn | Rule::PutOwn => true,
        Rule::Number
        | Rule::Truth
        | Rule::Text
        | Rule::Prim
        | Rule::This
        | Rule::Local
        | Rule::Consume
        | Rule::Get
        | Rule::Put
        | Rule::Define
        | Rule::Assign
        | Rule::New
        | Rule::Spawn
        | Rule::Call
        | Rule::CallRecover
        | Rule::Send
        | Rule::Builtin
        | Rule::Arith
        | Rule::Compare
        | Rule::Equal
        | Rule::Join
        | Rule::Logic
        | Rule::Lazy
        | Rule::Identity
        | Rule::Seq
        | Rule::If
        | Rule::While
        | Rule::Recover
        | Rule::Body => false,
    }
}

// Whether the rules for a constructor that has not set all fields yet are the ones looked at.
fn is_own(reasons: &[Reason]) -> bool
    ensures { result ≡ spec.looks_at_own_rules reasons.now }
{
    match reasons {
        [first, ..] => is_own_rule(first.rule),
        [] => false,
    }
}

// The words for a reason.
#[tactic(auto, unfolding(crate::specs::Explanation::reported))]
fn reported(alloc: Global, stop: &Stop, reason: Reason) -> Result<Reported, AllocError>
    ensures { IfOk result (λ one. one ≡ spec.reported stop.now reason) }
{
    let mut sentence = Vec::new(alloc);
    push_sentence(alloc, &mut sentence, stop, reason)?;
    let mut hint = Vec::new(alloc);
    push_hint(alloc, &mut hint, stop, reason)?;
    Ok(Reported {
        rule: reason.rule,
        sentence: List::from_vec(sentence),
        hint: List::from_vec(hint),
    })
}

// The words for all reasons.
fn all_reported(
    alloc: Global,
    stop: &Stop,
    reasons: &[Reason],
) -> Result<List<Reported>, AllocError>
    ensures { IfOk result (λ all. all ≡ map (spec.reported stop.now) reasons.now) }
{
    let mut all = List::new(alloc);
    for reason in reasons {
        all.push(reported(alloc, stop, *reason)?)?;
    }
    Ok(all)
}

// Appends the lines about the rules.
fn push_reasons(
    alloc: Global,
    out: &mut Vec<u8>,
    stop: &Stop,
    reasons: &[Reason],
) -> Result<(), AllocError>
    ensures { OnOk result (out.new.items ≡ out.old.items ++ rule_lines (map (spec.reported stop.now) reasons.now)) }
{
    let all = all_reported(alloc, stop, reasons)?;
    push_rule_lines(out, all.as_slice())
}

// Appends the explanation of a node at which no rule holds.
#[tactic(auto, unfolding(crate::specs::Explanation::node_explanation))]
fn push_node_text(
    alloc: Global,
    out: &mut Vec<u8>,
    name: &str,
    scene: &Scene,
    node: &Node,
    stop: &Stop,
    reasons: &[Reason],
) -> Result<(), AllocError>
    requires scene { stop.now.scene ≡ scene.now }
    requires node { stop.now.at ≡ node.now }
    ensures { OnOk result (out.new.items ≡ out.old.items ++ spec.node_explanation name.now stop.now reasons.now) }
{
    push_head(alloc, out, name, scene.bytes(), node.span, "no rule")?;
    push_node_line(alloc, out, scene, node)?;
    push_part_lines(alloc, out, scene, node, is_own(reasons))?;
    push_reasons(alloc, out, stop, reasons)
}

// The explanation of a declaration that fails.
fn explain_declaration(
    alloc: Global,
    name: &str,
    bytes: &[u8],
    tokens: &[Token],
    core: &Core,
    fault: DeclFault,
) -> Result<List<u8>, AllocError>
    ensures { IfOk result (λ text. text ≡ spec.declaration_text name.now (spec.scene_of bytes.now tokens.now core.now []) fault) }
{
    let slots = known_slots(alloc, core, &[])?;
    let scene = scene_of(bytes, tokens, core, slots.as_slice(), &[]);
    let mut text = Vec::new(alloc);
    push_declaration(alloc, &mut text, name, &scene, fault)?;
    Ok(List::from_vec(text))
}

// The explanation of a node at which no rule holds, with these masks before it.
fn explain_node(
    alloc: Global,
    name: &str,
    scene: &Scene,
    ann: &Ann,
    number: u32,
    node: &Node,
    masks: (Mask, Mask),
) -> Result<List<u8>, AllocError>
    requires { length ann.now.slots ≡ length scene.now.core.slots }
    ensures { IfOk result (λ text. text ≡ spec.node_explanation name.now (spec.stop_at scene.now number node.now masks) (spec.reasons_of scene.now.core ann.now node.now masks)) }
{
    let found = reasons_of(alloc, scene.core(), ann, node, masks)?;
    let stop = Stop::new(scene, number, node, masks.0, masks.1);
    let mut text = Vec::new(alloc);
    push_node_text(alloc, &mut text, name, scene, node, &stop, found.as_slice())?;
    Ok(List::from_vec(text))
}

// The explanation of a constructor that leaves a field unset, given the note of its body.
#[tactic(auto, unfolding(crate::specs::Explanation::unset_text))]
fn explain_unset(
    alloc: Global,
    name: &str,
    scene: &Scene,
    method: &Method,
    note: Note,
) -> Result<List<u8>, AllocError>
    ensures { IfOk result (λ text. text ≡ spec.unset_text name.now scene.now method.now note) }
{
    let mut text = Vec::new(alloc);
    push_head(
        alloc,
        &mut text,
        name,
        scene.bytes(),
        method.span,
        "field not set",
    )?;
    push_unset_lines(alloc, &mut text, scene, method, note.set_after)?;
    Ok(List::from_vec(text))
}

// The note of a method's body.
fn body_note(ann: &Ann, method: &Method) -> Option<Note>
    ensures { result ≡ spec.method_body_note ann.now method.now }
{
    note_at(ann.notes.as_slice(), method.body?)
}

// The explanation of the node with this number, at which no rule holds.
fn explain_stop(
    alloc: Global,
    name: &str,
    bytes: &[u8],
    tokens: &[Token],
    core: &Core,
    ann: &Ann,
    number: u32,
    masks: (Mask, Mask),
) -> Result<List<u8>, AllocError>
    requires { StopsAt core.now number masks ann.now }
    ensures { IfOk result (IsExplanation name.now bytes.now tokens.now core.now) }
{
    let notes = ann.notes.as_slice();
    let slots = known_slots(alloc, core, notes)?;
    let scene = scene_of(bytes, tokens, core, slots.as_slice(), notes);
    match core.node_at(number) {
        Some(node) => explain_node(alloc, name, &scene, ann, number, node, masks),
        // The fault names a node of the core.
        None => Ok(List::new(alloc)),
    }
}

// The explanation of the constructor with this number, which leaves a field unset.
fn explain_left(
    alloc: Global,
    name: &str,
    bytes: &[u8],
    tokens: &[Token],
    core: &Core,
    ann: &Ann,
    number: u32,
) -> Result<List<u8>, AllocError>
    requires { InferenceLeavesUnset core.now number ann.now }
    ensures { IfOk result (IsExplanation name.now bytes.now tokens.now core.now) }
{
    let notes = ann.notes.as_slice();
    let slots = known_slots(alloc, core, notes)?;
    let scene = scene_of(bytes, tokens, core, slots.as_slice(), notes);
    let Some(method) = core.method_at(number) else {
        // The fault names a method of the core.
        return Ok(List::new(alloc));
    };
    match body_note(ann, method) {
        Some(note) => explain_unset(alloc, name, &scene, method, note),
        // Its body has a note.
        None => Ok(List::new(alloc)),
    }
}

/// The explanation of why the core of a source has no derivation, given the source's name, bytes, tokens and core. The
/// fault is one that `check` reports.
///
/// # Errors
/// `AllocError` if memory ran out, here or in `check`.
pub fn explain_core(
    alloc: Global,
    name: &str,
    bytes: &[u8],
    tokens: &[Token],
    core: &Core,
    fault: &CheckFault,
) -> Result<List<u8>, AllocError>
    requires { RefusesCore core.now fault.now }
    ensures { IfOk result (IsExplanation name.now bytes.now tokens.now core.now) }
{
    match fault {
        CheckFault::Decl(fault) => { explain_declaration(alloc, name, bytes, tokens, core, *fault) }
        CheckFault::NoRule {
            node,
            live,
            set,
            so_far,
        } => explain_stop(
            alloc,
            name,
            bytes,
            tokens,
            core,
            so_far,
            *node,
            (*live, *set),
        ),
        CheckFault::Unset { method, so_far } => {
            explain_left(alloc, name, bytes, tokens, core, so_far, *method)
        }
        CheckFault::Memory => Err(AllocError),
    }
}
