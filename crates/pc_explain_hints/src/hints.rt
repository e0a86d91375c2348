//! Hints in words.
ghost use Rattle.std.specs.Prelude.{◌≡◌, ◌++◌, OnOk};
ghost use Rattle.pc_explain_hints.specs.Hints as spec;

use crate::choice::chosen;
use crate::hint::Hint;
use crate::texts::{
    CALL_CONSTRUCTOR, CALL_METHOD, CALL_VALUE, COMPARE, COMPARE_NUMBER, COMPARE_OBJECTS, CONSUME,
    CONSUME_AFTER, CONSUME_END, CONSUME_OR_ASSIGN, CONSUME_RECEIVER, COPY_FIRST, DECLARE_BOX,
    DECLARE_FUNCTION, DECLARE_HAT, DECLARE_RESULT, DECLARE_VAR, GIVE_OUT, GOES_TO, MAKE_INSIDE,
    OLD_VALUE, RECOVER_NEW, RECOVER_OBJECT, RECOVER_VALUE, SAY_IS, SEND_ARGUMENT, SEND_MESSAGE,
    SET_BEFORE, SET_BEFORE_LOOP, TAG_IN_RECOVER, TAG_UNTIL_SET, TO_STRING, USE_BEFORE,
    USE_OR_ASSIGN,
};
use pc_caps::unalias;
use pc_explain_conditions::Reason;
use pc_explain_sentences::{Fill, Stop, push_filled};
use std::alloc::{AllocError, Global};

// Whether a slot of the node's own method is a `var`.
fn is_own_var(stop: &Stop, slot: u32) -> bool
    ensures { result ≡ spec.is_own_var stop.now slot }
{
    stop.scene().is_var(stop.node().method, slot)
}

fn use_before_by(variable: bool) -> &'static [u8]
    ensures { result.now ≡ spec.use_before_by variable }
{
    if variable { USE_OR_ASSIGN } else { USE_BEFORE }
}

fn consume_after_by(variable: bool) -> &'static [u8]
    ensures { result.now ≡ spec.consume_after_by variable }
{
    if variable {
        CONSUME_OR_ASSIGN
    } else {
        CONSUME_AFTER
    }
}

// Appends a hint.
fn push_words(alloc: Global, out: &mut Vec<u8>, stop: &Stop, hint: Hint) -> Result<(), AllocError>
    ensures { OnOk result (out.new.items ≡ out.old.items ++ spec.hint_words stop.now hint) }
{
    match hint {
        Hint::SayIs(child, above) => {
            let fills = [Fill::PartEntity(child), Fill::Entity(above)];
            push_filled(alloc, out, stop, SAY_IS, &fills)
        }
        Hint::Consume(child, own) => {
            let fills = [Fill::PartSource(child), Fill::OneForm(unalias(own))];
            push_filled(alloc, out, stop, CONSUME, &fills)
        }
        Hint::ConsumeReceiver(child, own) => {
            let fills = [
                Fill::PartSource(child),
                Fill::Named,
                Fill::OneForm(unalias(own)),
            ];
            push_filled(alloc, out, stop, CONSUME_RECEIVER, &fills)
        }
        Hint::OldValue(child, form) => {
            let fills = [Fill::PartSource(child), Fill::OneForm(form)];
            push_filled(alloc, out, stop, OLD_VALUE, &fills)
        }
        Hint::DeclareFunction(cap) => {
            push_filled(
                alloc,
                out,
                stop,
                DECLARE_FUNCTION,
                &[Fill::OneCap(cap), Fill::OwnMethod],
            )
        }
        Hint::RecoverNew(child) => {
            push_filled(alloc, out, stop, RECOVER_NEW, &[Fill::PartSource(child)])
        }
        Hint::RecoverObject => push_filled(alloc, out, stop, RECOVER_OBJECT, &[]),
        Hint::GoesTo(form) => {
            push_filled(
                alloc,
                out,
                stop,
                GOES_TO,
                &[Fill::OneForm(form), Fill::Taking(form)],
            )
        }
        Hint::DeclareBox => {
            push_filled(alloc, out, stop, DECLARE_BOX, &[Fill::Named, Fill::Named])
        }
        Hint::DeclareResult(child) => {
            push_filled(alloc, out, stop, DECLARE_RESULT, &[Fill::PartType(child)])
        }
        Hint::DeclareHat(child, name, form) => {
            let fills = [
                Fill::Name(name),
                Fill::PartEntity(child),
                Fill::OneForm(form),
            ];
            push_filled(alloc, out, stop, DECLARE_HAT, &fills)
        }
        Hint::Compare => push_filled(alloc, out, stop, COMPARE, &[]),
        Hint::CompareNumber => push_filled(alloc, out, stop, COMPARE_NUMBER, &[]),
        Hint::ToString => push_filled(alloc, out, stop, TO_STRING, &[]),
        Hint::CompareObjects => push_filled(alloc, out, stop, COMPARE_OBJECTS, &[]),
        Hint::UseBefore(slot) => {
            let sentence = use_before_by(is_own_var(stop, slot));
            push_filled(alloc, out, stop, sentence, &[Fill::Slot(slot)])
        }
        Hint::MakeInside => push_filled(alloc, out, stop, MAKE_INSIDE, &[]),
        Hint::GiveOut => push_filled(alloc, out, stop, GIVE_OUT, &[]),
        Hint::CopyFirst => push_filled(alloc, out, stop, COPY_FIRST, &[]),
        Hint::DeclareSlot(slot) => push_filled(alloc, out, stop, DECLARE_VAR, &[Fill::Slot(slot)]),
        Hint::DeclareField => push_filled(alloc, out, stop, DECLARE_VAR, &[Fill::Named]),
        Hint::DeclareOwnField(field) => {
            push_filled(alloc, out, stop, DECLARE_VAR, &[Fill::OwnField(field)])
        }
        Hint::CallMethod(name) => {
            push_filled(
                alloc,
                out,
                stop,
                CALL_METHOD,
                &[Fill::Name(name), Fill::Name(name)],
            )
        }
        Hint::CallValue(name) => {
            push_filled(
                alloc,
                out,
                stop,
                CALL_VALUE,
                &[Fill::Name(name), Fill::Name(name)],
            )
        }
        Hint::TagInRecover => push_filled(alloc, out, stop, TAG_IN_RECOVER, &[Fill::OwnReceiver]),
        Hint::TagUntilSet => push_filled(alloc, out, stop, TAG_UNTIL_SET, &[]),
        Hint::SendMessage => push_filled(alloc, out, stop, SEND_MESSAGE, &[]),
        Hint::SetBefore(field) => {
            push_filled(alloc, out, stop, SET_BEFORE, &[Fill::OwnField(field)])
        }
        Hint::CallConstructor => push_filled(alloc, out, stop, CALL_CONSTRUCTOR, &[Fill::Method]),
        Hint::SendArgument => push_filled(alloc, out, stop, SEND_ARGUMENT, &[]),
        Hint::ConsumeAfter(slot) => {
            let sentence = consume_after_by(is_own_var(stop, slot));
            push_filled(alloc, out, stop, sentence, &[Fill::Slot(slot)])
        }
        Hint::SetBeforeLoop => push_filled(alloc, out, stop, SET_BEFORE_LOOP, &[]),
        Hint::RecoverValue => push_filled(alloc, out, stop, RECOVER_VALUE, &[]),
        Hint::ConsumeEnd(slot) => push_filled(alloc, out, stop, CONSUME_END, &[Fill::Slot(slot)]),
    }
}

/// Appends what to do about a reason, if there is a hint.
#[tactic(auto, unfolding(crate::specs::Hints::hint))]
pub fn push_hint(
    alloc: Global,
    out: &mut Vec<u8>,
    stop: &Stop,
    reason: Reason,
) -> Result<(), AllocError>
    ensures { OnOk result (out.new.items ≡ out.old.items ++ spec.hint stop.now reason) }
{
    match chosen(stop, reason.condition) {
        Some(hint) => push_words(alloc, out, stop, hint),
        None => Ok(()),
    }
}
