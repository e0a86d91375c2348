//! The sentence of a condition that does not hold.
ghost use Rattle.std.specs.Prelude.{◌≡◌, ◌++◌, OnOk};
ghost use Rattle.pc_explain_sentences.specs.Sentences as spec;

use crate::fills::{Fill, push_filled};
use crate::slots::{consumed_at, looped_field, lost_slot};
use crate::stop::Stop;
use crate::texts::{
    BUILTIN_COUNT, COMPARED, CONSUMED, FIXED, INTO_ISO, INTO_TRN, LET, LOOPED, LOST, METHOD_COUNT,
    NO_FIELD, NO_FUNCTION, NO_METHOD, NOT_BELOW, NOT_ISOLATED, NOT_JUST, NOT_LENT, NOT_LIFTED,
    NOT_LIVE, NOT_REACHED, NOT_SENT, NOT_UNDER, PARAMETER, PART_UNFIT, PRINTED, RECEIVER_UNFIT,
    SET, UNREADABLE, UNSEEN, UNSET, UNTYPED, UNWRITABLE,
};
use crate::untyped::push_reason;
use pc_ann::Rule;
use pc_caps::{Cap, Form};
use pc_explain_conditions::{Condition, Reason};
use pc_explain_parts::{Role, child_role, shown_node};
use pc_explain_words::{child, push_why_not_below};
use std::alloc::{AllocError, Global};

// Appends a sentence about a part and its form.
fn push_of_form(
    alloc: Global,
    out: &mut Vec<u8>,
    stop: &Stop,
    sentence: &[u8],
    index: usize,
) -> Result<(), AllocError>
    ensures { OnOk result (out.new.items ≡ out.old.items ++ spec.of_form stop.now sentence.now index) }
{
    push_filled(
        alloc,
        out,
        stop,
        sentence,
        &[Fill::Part(index), Fill::PartForm(index)],
    )
}

// Appends a sentence about a part and its entity.
fn push_about_entity(
    alloc: Global,
    out: &mut Vec<u8>,
    stop: &Stop,
    sentence: &[u8],
    index: usize,
) -> Result<(), AllocError>
    ensures { OnOk result (out.new.items ≡ out.old.items ++ spec.about_entity stop.now sentence.now index) }
{
    push_filled(
        alloc,
        out,
        stop,
        sentence,
        &[Fill::Part(index), Fill::APartEntity(index)],
    )
}

// Appends why the node that a part shows has no type.
fn push_part_reason(
    alloc: Global,
    out: &mut Vec<u8>,
    stop: &Stop,
    index: usize,
) -> Result<(), AllocError>
    ensures { OnOk result (out.new.items ≡ out.old.items ++ spec.part_reason stop.now index) }
{
    let node = stop.node();
    match child(node, index) {
        Some(number) => {
            let shown = shown_node(stop.core(), child_role(node, index), number);
            push_reason(alloc, out, stop.scene(), shown)
        }
        None => Ok(()),
    }
}

fn push_untyped(
    alloc: Global,
    out: &mut Vec<u8>,
    stop: &Stop,
    index: usize,
) -> Result<(), AllocError>
    ensures { OnOk result (out.new.items ≡ out.old.items ++ spec.untyped stop.now index) }
{
    push_filled(alloc, out, stop, UNTYPED, &[Fill::Part(index)])?;
    push_part_reason(alloc, out, stop, index)
}

// Appends which method of an interface the entity of a type lacks.
fn push_why_not(
    alloc: Global,
    out: &mut Vec<u8>,
    stop: &Stop,
    above: u32,
    ty: Option<(u32, Form)>,
) -> Result<(), AllocError>
    ensures { OnOk result (out.new.items ≡ out.old.items ++ spec.why_not stop.now above ty) }
{
    match ty {
        Some(found) => push_why_not_below(alloc, out, stop.scene(), found.0, above),
        None => Ok(()),
    }
}

fn push_not_under(
    alloc: Global,
    out: &mut Vec<u8>,
    stop: &Stop,
    index: usize,
    entity: u32,
) -> Result<(), AllocError>
    ensures { OnOk result (out.new.items ≡ out.old.items ++ spec.not_under stop.now index entity) }
{
    let fills = [
        Fill::Part(index),
        Fill::APartEntity(index),
        Fill::Entity(entity),
        Fill::PartGoal(index),
    ];
    push_filled(alloc, out, stop, NOT_UNDER, &fills)?;
    push_why_not(alloc, out, stop, entity, stop.child_type(index))
}

fn push_receiver_unfit(
    alloc: Global,
    out: &mut Vec<u8>,
    stop: &Stop,
    index: usize,
    cap: Cap,
) -> Result<(), AllocError>
    ensures { OnOk result (out.new.items ≡ out.old.items ++ spec.receiver_unfit stop.now index cap) }
{
    let fills = [
        Fill::PartForm(index),
        Fill::OneCap(cap),
        Fill::Named,
        Fill::Fitting(cap),
    ];
    push_filled(alloc, out, stop, RECEIVER_UNFIT, &fills)
}

fn push_part_unfit(
    alloc: Global,
    out: &mut Vec<u8>,
    stop: &Stop,
    index: usize,
    cap: Cap,
) -> Result<(), AllocError>
    ensures { OnOk result (out.new.items ≡ out.old.items ++ spec.part_unfit stop.now index cap) }
{
    let fills = [
        Fill::Part(index),
        Fill::PartFound(index),
        Fill::PartGoal(index),
        Fill::ACap(cap),
        Fill::Takes(cap),
    ];
    push_filled(alloc, out, stop, PART_UNFIT, &fills)
}

fn push_unfit(
    alloc: Global,
    out: &mut Vec<u8>,
    stop: &Stop,
    index: usize,
    cap: Cap,
) -> Result<(), AllocError>
    ensures { OnOk result (out.new.items ≡ out.old.items ++ spec.unfit stop.now index cap) }
{
    match child_role(stop.node(), index) {
        Role::Receiver => push_receiver_unfit(alloc, out, stop, index, cap),
        Role::Value
        | Role::Origin
        | Role::Argument(_)
        | Role::Left
        | Role::Right
        | Role::Operand
        | Role::Condition
        | Role::Body
        | Role::Last
        | Role::Unseen => push_part_unfit(alloc, out, stop, index, cap),
    }
}

fn push_not_live(alloc: Global, out: &mut Vec<u8>, stop: &Stop, slot: u32) -> Result<(), AllocError>
    ensures { OnOk result (out.new.items ≡ out.old.items ++ spec.not_live stop.now slot) }
{
    match consumed_at(stop, slot) {
        Some(at) => {
            let fills = [Fill::Slot(slot), Fill::Slot(slot), Fill::Place(at)];
            push_filled(alloc, out, stop, CONSUMED, &fills)
        }
        None => push_filled(alloc, out, stop, NOT_LIVE, &[Fill::Slot(slot)]),
    }
}

fn not_variable_by(param: bool) -> &'static [u8]
    ensures { result.now ≡ spec.not_variable_by param }
{
    if param { PARAMETER } else { LET }
}

fn push_not_variable(
    alloc: Global,
    out: &mut Vec<u8>,
    stop: &Stop,
    slot: u32,
) -> Result<(), AllocError>
    ensures { OnOk result (out.new.items ≡ out.old.items ++ spec.not_variable stop.now slot) }
{
    let param = stop.scene().is_param(stop.node().method, slot);
    push_filled(
        alloc,
        out,
        stop,
        not_variable_by(param),
        &[Fill::Slot(slot)],
    )
}

fn not_entering_by(form: Form) -> &'static [u8]
    ensures { result.now ≡ spec.not_entering_by form }
{
    match form {
        Form::Trn | Form::TrnE => INTO_TRN,
        Form::Iso | Form::IsoE | Form::Ref | Form::Val | Form::Box | Form::Tag => INTO_ISO,
    }
}

fn push_not_entering(alloc: Global, out: &mut Vec<u8>, stop: &Stop) -> Result<(), AllocError>
    ensures { OnOk result (out.new.items ≡ out.old.items ++ spec.not_entering stop.now) }
{
    let sentence = not_entering_by(stop.child_form(1));
    push_filled(alloc, out, stop, sentence, &[Fill::PartForm(0)])
}

fn is_builtin(rule: Rule) -> bool
    ensures { result ≡ spec.is_builtin rule }
{
    matches!(rule, Rule::Builtin)
}

fn push_miscounted(
    alloc: Global,
    out: &mut Vec<u8>,
    stop: &Stop,
    rule: Rule,
    given: usize,
    wanted: usize,
) -> Result<(), AllocError>
    ensures { OnOk result (out.new.items ≡ out.old.items ++ spec.miscounted stop.now rule given wanted) }
{
    if is_builtin(rule) {
        let fills = [Fill::Number(given), Fill::IsOrAre(given)];
        push_filled(alloc, out, stop, BUILTIN_COUNT, &fills)
    } else {
        let fills = [
            Fill::MethodName,
            Fill::Number(wanted),
            Fill::ArgumentWord(wanted),
            Fill::Number(given),
            Fill::IsOrAre(given),
        ];
        push_filled(alloc, out, stop, METHOD_COUNT, &fills)
    }
}

fn push_not_lifted(
    alloc: Global,
    out: &mut Vec<u8>,
    stop: &Stop,
    written: Option<Cap>,
) -> Result<(), AllocError>
    ensures { OnOk result (out.new.items ≡ out.old.items ++ spec.not_lifted stop.now written) }
{
    let fills = [
        Fill::Part(0),
        Fill::PartForm(0),
        Fill::LiftedForm,
        Fill::LiftedForm,
        Fill::WrittenCap(written),
    ];
    push_filled(alloc, out, stop, NOT_LIFTED, &fills)
}

/// Appends the sentence of a reason: the first condition of the rule that does not hold at the node.
#[tactic(auto, unfolding(crate::specs::Sentences::sentence))]
pub fn push_sentence(
    alloc: Global,
    out: &mut Vec<u8>,
    stop: &Stop,
    reason: Reason,
) -> Result<(), AllocError>
    ensures { OnOk result (out.new.items ≡ out.old.items ++ spec.sentence stop.now reason) }
{
    match reason.condition {
        Condition::Typed(child) => push_untyped(alloc, out, stop, child),
        Condition::Under(child, entity) => push_not_under(alloc, out, stop, child, entity),
        Condition::Fits(child, cap) => push_unfit(alloc, out, stop, child, cap),
        Condition::Below(child, form) => {
            let fills = [
                Fill::Part(child),
                Fill::PartForm(child),
                Fill::OneForm(form),
            ];
            push_filled(alloc, out, stop, NOT_BELOW, &fills)
        }
        Condition::IsA(child, entity) => {
            let fills = [
                Fill::Part(child),
                Fill::APartEntity(child),
                Fill::AnEntity(entity),
            ];
            push_filled(alloc, out, stop, NOT_JUST, &fills)
        }
        Condition::Comparable(child) => push_about_entity(alloc, out, stop, COMPARED, child),
        Condition::Printable(child) => push_about_entity(alloc, out, stop, PRINTED, child),
        Condition::Readable(child) => push_of_form(alloc, out, stop, UNREADABLE, child),
        Condition::Live(slot) => push_not_live(alloc, out, stop, slot),
        Condition::Reached(slot) => {
            let fills = [Fill::Slot(slot), Fill::SlotCap(slot), Fill::UsedWord];
            push_filled(alloc, out, stop, NOT_REACHED, &fills)
        }
        Condition::Variable(slot) => push_not_variable(alloc, out, stop, slot),
        Condition::HasField(child, name) => {
            let fills = [Fill::PartEntity(child), Fill::Name(name)];
            push_filled(alloc, out, stop, NO_FIELD, &fills)
        }
        Condition::HasOwnField(name) => {
            push_filled(
                alloc,
                out,
                stop,
                NO_FIELD,
                &[Fill::OwnEntity, Fill::Name(name)],
            )
        }
        Condition::Seen(child, _) => push_of_form(alloc, out, stop, UNSEEN, child),
        Condition::NotFixed(_) => push_filled(alloc, out, stop, FIXED, &[Fill::Named]),
        Condition::Writable(child, _) => push_of_form(alloc, out, stop, UNWRITABLE, child),
        Condition::Enters(_) => push_not_entering(alloc, out, stop),
        Condition::Set(field) => push_filled(alloc, out, stop, UNSET, &[Fill::OwnField(field)]),
        Condition::SetOnce(_, field) => {
            push_filled(alloc, out, stop, SET, &[Fill::OwnField(field)])
        }
        Condition::HasMethod(name) => {
            let fills = [Fill::PartEntity(stop.receiver_index()), Fill::Name(name)];
            push_filled(alloc, out, stop, NO_METHOD, &fills)
        }
        Condition::Function(_) => push_filled(alloc, out, stop, NO_FUNCTION, &[Fill::Method]),
        Condition::Behaviour(_) | Condition::Unfit(_, _) => Ok(()),
        Condition::Counted(given, wanted) => {
            push_miscounted(alloc, out, stop, reason.rule, given, wanted)
        }
        Condition::Isolated(child) => push_of_form(alloc, out, stop, NOT_ISOLATED, child),
        Condition::Lent(cap) => {
            push_filled(
                alloc,
                out,
                stop,
                NOT_LENT,
                &[Fill::Named, Fill::OneCap(cap)],
            )
        }
        Condition::Sent(child, cap) => {
            let fills = [Fill::Part(child), Fill::PartForm(child), Fill::OneCap(cap)];
            push_filled(alloc, out, stop, NOT_SENT, &fills)
        }
        Condition::KeepsLive => {
            push_filled(alloc, out, stop, LOST, &[Fill::Slot(lost_slot(stop))])
        }
        Condition::KeepsSet => {
            push_filled(
                alloc,
                out,
                stop,
                LOOPED,
                &[Fill::OwnField(looped_field(stop))],
            )
        }
        Condition::Lifted(written) => push_not_lifted(alloc, out, stop, written),
    }
}
