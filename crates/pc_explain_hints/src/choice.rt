//! What to do about each condition that does not hold.
ghost use Rattle.std.specs.Prelude.{◌≡◌, slice_get};
ghost use Rattle.pc_explain_hints.specs.Choice as spec;
ghost use Rattle.pc_explain_sentences.specs.Fills.{is_assign as is_assign_is};
ghost use Rattle.pc_explain_sentences.specs.Stop.{child_node as node_is};

use crate::hint::Hint;
use crate::nodes::{
    called_hat, end_slot, is_assigned, is_box_this, is_in_condition, is_new, is_tag_actor,
    is_tag_this, local_cap, old_form, recovered_slot,
};
use pc_caps::{Cap, Form, below, fits, lift, sendable, unalias};
use pc_core::{Core, Method, MethodKind, Node, NodeKind};
use pc_explain_conditions::Condition;
use pc_explain_parts::{Role, child_role};
use pc_explain_sentences::{Stop, lost_slot};
use pc_tree::{BOOL_ENTITY, EntityKind, FIRST_OWN, STRING_ENTITY, U64_ENTITY};

/// What is required of a part's form.
#[derive(Clone, Copy)]
pub enum Wanted {
    /// It fits this capability.
    Fits(Cap),
    /// It is below this form.
    Below(Form),
}

fn when(holds: bool, hint: Hint) -> Option<Hint>
    ensures { result ≡ spec.hint_if holds hint }
{
    if holds { Some(hint) } else { None }
}

// The first hint, or else the other.
fn or_else(first: Option<Hint>, other: Option<Hint>) -> Option<Hint>
    ensures { result ≡ spec.hint_or_else first other }
{
    match first {
        Some(hint) => Some(hint),
        None => other,
    }
}

// The first hint if there is one, or else this one.
fn or_this(first: Option<Hint>, other: Hint) -> Hint
    ensures { result ≡ spec.or_this first other }
{
    match first {
        Some(hint) => hint,
        None => other,
    }
}

// Whether a form is as required.
fn suits(wanted: Wanted, form: Form) -> bool
    ensures { result ≡ spec.suits wanted form }
{
    match wanted {
        Wanted::Fits(cap) => fits(form, cap),
        Wanted::Below(upper) => below(form, upper),
    }
}

// The hint to consume a part, or a receiver.
fn consume_hint(receiver: bool, index: usize, own: Cap) -> Hint
    ensures { result ≡ spec.consume_hint receiver index own }
{
    if receiver {
        Hint::ConsumeReceiver(index, own)
    } else {
        Hint::Consume(index, own)
    }
}

// A local of iso or trn is consumed, if the result suits.
fn consume_if(wanted: Wanted, receiver: bool, index: usize, own: Option<Cap>) -> Option<Hint>
    ensures { result ≡ spec.consume_if wanted receiver index own }
{
    match own {
        Some(found) => when(
            suits(wanted, unalias(found)),
            consume_hint(receiver, index, found),
        ),
        None => None,
    }
}

// The old value of a `var` field is taken, if it suits.
fn old_if(wanted: Wanted, index: usize, old: Option<Form>) -> Option<Hint>
    ensures { result ≡ spec.old_if wanted index old }
{
    match old {
        Some(found) => when(suits(wanted, found), Hint::OldValue(index, found)),
        None => None,
    }
}

// A box `this` is declared ref, or else val, if that suits.
fn declare_if(own_box: bool, wanted: Wanted) -> Option<Hint>
    ensures { result ≡ spec.declare_if own_box wanted }
{
    or_else(
        when(
            own_box && suits(wanted, Form::Ref),
            Hint::DeclareFunction(Cap::Ref),
        ),
        when(
            own_box && suits(wanted, Form::Val),
            Hint::DeclareFunction(Cap::Val),
        ),
    )
}

// The result of the function that is called is declared with `^`, if that suits.
fn hat_if(wanted: Wanted, index: usize, called: Option<(u32, Form)>) -> Option<Hint>
    ensures { result ≡ spec.hat_if wanted index called }
{
    match called {
        Some(found) => when(
            suits(wanted, found.1),
            Hint::DeclareHat(index, found.0, found.1),
        ),
        None => None,
    }
}

// An iso with which the body of a `recover` ends is consumed.
fn end_if(end: Option<u32>) -> Option<Hint>
    ensures { result ≡ spec.end_if end }
{
    match end {
        Some(slot) => Some(Hint::ConsumeEnd(slot)),
        None => None,
    }
}

fn is_constructor(kind: MethodKind) -> bool
    ensures { result ≡ spec.is_constructor_kind kind }
{
    match kind {
        MethodKind::New | MethodKind::Spawn => true,
        MethodKind::Fun | MethodKind::Be => false,
    }
}

// Why `this` of a method is a tag, if it is not one by declaration.
fn tag_hint(recovered: bool, method: &Method) -> Option<Hint>
    ensures { result ≡ spec.tag_hint recovered method.now }
{
    if recovered && !sendable(method.receiver) {
        Some(Hint::TagInRecover)
    } else {
        when(is_constructor(method.kind), Hint::TagUntilSet)
    }
}

// The hint for a part that is `this`, seen as tag.
fn tag_this(stop: &Stop, index: usize) -> Option<Hint>
    ensures { result ≡ spec.tag_this stop.now index }
{
    if !is_tag_this(stop, index) {
        return None;
    }
    match stop.core().method_at(stop.node().method) {
        Some(method) => tag_hint(stop.node().depth > 0, method),
        None => None,
    }
}

// The hint for a part that can do no more than be named: `this`, or another actor.
fn tag_part(stop: &Stop, index: usize) -> Option<Hint>
    ensures { result ≡ spec.tag_part stop.now index }
{
    or_else(
        tag_this(stop, index),
        when(
            is_tag_actor(stop.core(), stop.child_type(index)),
            Hint::SendMessage,
        ),
    )
}

fn is_ref_form(form: Form) -> bool
    ensures { result ≡ spec.is_ref_form form }
{
    matches!(form, Form::Ref)
}

fn is_mutable_form(form: Form) -> bool
    ensures { result ≡ spec.is_mutable_form form }
{
    matches!(form, Form::Ref | Form::Trn)
}

fn is_recovered_cap(cap: Cap) -> bool
    ensures { result ≡ spec.is_recovered_cap cap }
{
    matches!(cap, Cap::Iso | Cap::Val)
}

// What to do about an object.
fn object_hint(index: usize, node: &Node, form: Form, cap: Cap) -> Hint
    ensures { result ≡ spec.object_hint index node.now form cap }
{
    if is_new(&node.kind) && (is_ref_form(form) && fits(Form::IsoE, cap)) {
        Hint::RecoverNew(index)
    } else if is_mutable_form(form) && is_recovered_cap(cap) {
        Hint::RecoverObject
    } else {
        Hint::GoesTo(form)
    }
}

// What to do about a part that shows this node, and whose form does not fit.
fn fitting_node(stop: &Stop, index: usize, cap: Cap, node: &Node, form: Form) -> Hint
    ensures { result ≡ spec.fitting_node stop.now index cap node.now form }
{
    let wanted = Wanted::Fits(cap);
    let consumed = consume_if(wanted, false, index, local_cap(stop, node));
    let old = old_if(wanted, index, old_form(stop, node));
    let hat = hat_if(wanted, index, called_hat(stop, node));
    let declared = declare_if(is_box_this(stop, node, form), wanted);
    let end = end_if(recovered_slot(stop, node));
    let object = or_this(end, object_hint(index, node, form, cap));
    let tag = or_this(tag_this(stop, index), object);
    or_this(consumed, or_this(old, or_this(hat, or_this(declared, tag))))
}

// What to do about a part whose form does not fit.
fn fitting(stop: &Stop, index: usize, cap: Cap) -> Option<Hint>
    ensures { result ≡ spec.fitting_hint stop.now index cap }
{
    match stop.child_node(index) {
        Some(node) => Some(fitting_node(stop, index, cap, node, stop.child_form(index))),
        None => None,
    }
}

fn is_seen_form(form: Form) -> bool
    ensures { result ≡ spec.is_seen_form form }
{
    matches!(form, Form::Box | Form::Val)
}

fn is_ref_cap(cap: Cap) -> bool
    ensures { result ≡ spec.is_ref_cap cap }
{
    matches!(cap, Cap::Ref)
}

// What to do about a receiver that shows this node, and whose form does not fit.
fn receiver_node(stop: &Stop, index: usize, cap: Cap, node: &Node, form: Form) -> Option<Hint>
    ensures { result ≡ spec.receiver_node stop.now index cap node.now form }
{
    let wanted = Wanted::Fits(cap);
    let consumed = consume_if(wanted, true, index, local_cap(stop, node));
    let hat = hat_if(wanted, index, called_hat(stop, node));
    let declared = declare_if(is_box_this(stop, node, form), wanted);
    let seen = when(is_seen_form(form) && is_ref_cap(cap), Hint::DeclareBox);
    or_else(
        consumed,
        or_else(hat, or_else(declared, or_else(seen, tag_part(stop, index)))),
    )
}

// What to do about a receiver whose form does not fit.
fn receiver(stop: &Stop, index: usize, cap: Cap) -> Option<Hint>
    ensures { result ≡ spec.receiver stop.now index cap }
{
    match stop.child_node(index) {
        Some(node) => receiver_node(stop, index, cap, node, stop.child_form(index)),
        None => None,
    }
}

fn unfit(stop: &Stop, index: usize, cap: Cap) -> Option<Hint>
    ensures { result ≡ spec.unfit_hint stop.now index cap }
{
    match child_role(stop.node(), index) {
        Role::Receiver => receiver(stop, index, cap),
        Role::Value
        | Role::Origin
        | Role::Argument(_)
        | Role::Left
        | Role::Right
        | Role::Operand
        | Role::Condition
        | Role::Body
        | Role::Last
        | Role::Unseen => fitting(stop, index, cap),
    }
}

// What to do about a value that shows this node, and whose form is not below that of the result.
fn below_node(stop: &Stop, index: usize, upper: Form, node: &Node, form: Form) -> Hint
    ensures { result ≡ spec.below_node stop.now index upper node.now form }
{
    let wanted = Wanted::Below(upper);
    let declared = declare_if(is_box_this(stop, node, form), wanted);
    let consumed = consume_if(wanted, false, index, local_cap(stop, node));
    let old = old_if(wanted, index, old_form(stop, node));
    let hat = hat_if(wanted, index, called_hat(stop, node));
    let end = end_if(recovered_slot(stop, node));
    let recovered = when(
        is_ref_form(form) && below(Form::IsoE, upper),
        Hint::RecoverObject,
    );
    or_this(
        declared,
        or_this(
            consumed,
            or_this(
                old,
                or_this(
                    hat,
                    or_this(end, or_this(recovered, Hint::DeclareResult(index))),
                ),
            ),
        ),
    )
}

fn not_below(stop: &Stop, index: usize, upper: Form) -> Option<Hint>
    ensures { result ≡ spec.below stop.now index upper }
{
    match stop.child_node(index) {
        Some(node) => Some(below_node(stop, index, upper, node, stop.child_form(index))),
        None => None,
    }
}

fn is_condition(role: Role) -> bool
    ensures { result ≡ spec.is_condition_role role }
{
    matches!(role, Role::Condition)
}

// Whether the entity is that of numbers or of truth values.
fn is_plain(ty: Option<(u32, Form)>) -> bool
    ensures { result ≡ spec.is_number_or_truth ty }
{
    match ty {
        Some(found) => found.0 == U64_ENTITY || found.0 == BOOL_ENTITY,
        None => false,
    }
}

// A number or a truth value where a String is asked for.
fn string_hint(stop: &Stop, index: usize, entity: u32) -> Option<Hint>
    ensures { result ≡ spec.string_hint stop.now index entity }
{
    when(
        entity == STRING_ENTITY && is_plain(stop.child_type(index)),
        Hint::ToString,
    )
}

fn is_of_numbers(ty: Option<(u32, Form)>) -> bool
    ensures { result ≡ spec.is_of_numbers ty }
{
    match ty {
        Some(found) => found.0 == U64_ENTITY,
        None => false,
    }
}

// What to do about a condition that is no truth value.
fn condition_hint(stop: &Stop, index: usize) -> Option<Hint>
    ensures { result ≡ spec.condition_hint stop.now index }
{
    or_else(
        when(is_assigned(stop, index), Hint::Compare),
        when(is_of_numbers(stop.child_type(index)), Hint::CompareNumber),
    )
}

fn entity_hint(stop: &Stop, index: usize, entity: u32) -> Option<Hint>
    ensures { result ≡ spec.entity_hint stop.now index entity }
{
    if is_condition(child_role(stop.node(), index)) {
        condition_hint(stop, index)
    } else {
        string_hint(stop, index, entity)
    }
}

// Whether the entity with this number is a trait.
fn is_trait(core: &Core, entity: u32) -> bool
    ensures { result ≡ spec.is_trait (slice_get core.now.entities entity) }
{
    match core.entity_at(entity) {
        Some(found) => matches!(found.kind, EntityKind::Trait),
        None => false,
    }
}

// Whether the entity of this type may declare a trait.
fn says_is(core: &Core, ty: Option<(u32, Form)>) -> bool
    ensures { result ≡ spec.says_is core.now ty }
{
    match ty {
        Some(found) => match core.entity_at(found.0) {
            Some(entity) => FIRST_OWN <= found.0 && !entity.kind.is_abstract(),
            None => false,
        },
        None => false,
    }
}

// What to do about a part whose entity is not below this one.
fn under(stop: &Stop, index: usize, above: u32) -> Option<Hint>
    ensures { result ≡ spec.under_hint stop.now index above }
{
    let core = stop.core();
    let said = is_trait(core, above) && says_is(core, stop.child_type(index));
    or_else(
        when(said, Hint::SayIs(index, above)),
        string_hint(stop, index, above),
    )
}

fn has_method(core: &Core, entity: Option<u32>, name: u32) -> bool
    ensures { result ≡ spec.has_method core.now entity name }
{
    match entity {
        Some(number) => core.method(number, name).is_some(),
        None => false,
    }
}

fn has_field(core: &Core, entity: Option<u32>, name: u32) -> bool
    ensures { result ≡ spec.has_field core.now entity name }
{
    match entity {
        Some(number) => core.field(number, name).is_some(),
        None => false,
    }
}

fn entity_in(ty: Option<(u32, Form)>) -> Option<u32>
    ensures { result ≡ spec.type_entity ty }
{
    match ty {
        Some(found) => Some(found.0),
        None => None,
    }
}

// The entity of the method with this number.
fn entity_by(core: &Core, method: u32) -> Option<u32>
    ensures { result ≡ spec.method_entity (slice_get core.now.methods method) }
{
    match core.method_at(method) {
        Some(found) => Some(found.entity),
        None => None,
    }
}

// Whether the child is a box `this` in a box function.
fn shows_box(stop: &Stop, index: usize) -> bool
    ensures { result ≡ spec.shows_box stop.now index (node_is stop.now index) }
{
    match stop.child_node(index) {
        Some(node) => is_box_this(stop, node, stop.child_form(index)),
        None => false,
    }
}

fn writable(stop: &Stop, index: usize) -> Option<Hint>
    ensures { result ≡ spec.writable stop.now index }
{
    or_else(
        when(shows_box(stop, index), Hint::DeclareFunction(Cap::Ref)),
        tag_part(stop, index),
    )
}

fn entered_cap(origin: Form) -> Cap
    ensures { result ≡ spec.entered_cap origin }
{
    match origin {
        Form::Trn | Form::TrnE => Cap::Trn,
        Form::Iso | Form::IsoE | Form::Ref | Form::Val | Form::Box | Form::Tag => Cap::Iso,
    }
}

fn is_goes_to(hint: Hint) -> bool
    ensures { result ≡ spec.is_goes_to hint }
{
    matches!(hint, Hint::GoesTo(_))
}

// The hint, unless it says where else a value can go.
fn unless_goes_to(hint: Option<Hint>) -> Option<Hint>
    ensures { result ≡ spec.unless_goes_to hint }
{
    match hint {
        Some(found) => when(!is_goes_to(found), found),
        None => None,
    }
}

fn is_val_form(form: Form) -> bool
    ensures { result ≡ spec.is_val_form form }
{
    matches!(form, Form::Val)
}

// What to do about the value of a `recover`.
fn lifted(stop: &Stop) -> Option<Hint>
    ensures { result ≡ spec.lifted_hint stop.now }
{
    or_else(
        when(is_val_form(lift(stop.child_form(0))), Hint::RecoverValue),
        end_if(end_slot(stop, stop.node())),
    )
}

fn is_assign(kind: &NodeKind) -> bool
    ensures { result ≡ is_assign_is kind.now }
{
    matches!(kind, NodeKind::Assign(_))
}

fn reached(assigned: bool) -> Hint
    ensures { result ≡ spec.reached_hint assigned }
{
    if assigned {
        Hint::GiveOut
    } else {
        Hint::MakeInside
    }
}

fn variable(param: bool, slot: u32) -> Hint
    ensures { result ≡ spec.variable_hint param slot }
{
    if param {
        Hint::CopyFirst
    } else {
        Hint::DeclareSlot(slot)
    }
}

// In a condition, `=` stands where `==` is meant.
fn compare_or(condition: bool, hint: Hint) -> Hint
    ensures { result ≡ spec.compare_or condition hint }
{
    if condition { Hint::Compare } else { hint }
}

/// What to do about a condition that does not hold, if there is a hint.
pub fn chosen(stop: &Stop, condition: Condition) -> Option<Hint>
    ensures { result ≡ spec.hint_for stop.now condition }
{
    let core = stop.core();
    let node = stop.node();
    match condition {
        Condition::Under(child, entity) => under(stop, child, entity),
        Condition::Fits(child, cap) => unfit(stop, child, cap),
        Condition::Below(child, form) => not_below(stop, child, form),
        Condition::IsA(child, entity) => entity_hint(stop, child, entity),
        Condition::Comparable(_) => Some(Hint::CompareObjects),
        Condition::Live(slot) => Some(Hint::UseBefore(slot)),
        Condition::Reached(_) => Some(reached(is_assign(&node.kind))),
        Condition::Variable(slot) => Some(compare_or(
            is_in_condition(stop),
            variable(stop.scene().is_param(node.method, slot), slot),
        )),
        Condition::HasField(child, name) => when(
            has_method(core, entity_in(stop.child_type(child)), name),
            Hint::CallMethod(name),
        ),
        Condition::HasOwnField(name) => when(
            has_method(core, entity_by(core, node.method), name),
            Hint::CallMethod(name),
        ),
        Condition::Seen(child, _) => tag_part(stop, child),
        Condition::NotFixed(_) => Some(compare_or(is_in_condition(stop), Hint::DeclareField)),
        Condition::Writable(child, _) => writable(stop, child),
        Condition::Enters(_) => {
            unless_goes_to(fitting(stop, 0, entered_cap(stop.child_form(1))))
        }
        Condition::Set(field) => Some(Hint::SetBefore(field)),
        Condition::SetOnce(_, field) => Some(Hint::DeclareOwnField(field)),
        Condition::HasMethod(name) => when(
            has_field(
                core,
                entity_in(stop.child_type(stop.receiver_index())),
                name,
            ),
            Hint::CallValue(name),
        ),
        Condition::Function(_) => Some(Hint::CallConstructor),
        Condition::Sent(_, _) => Some(Hint::SendArgument),
        Condition::KeepsLive => Some(Hint::ConsumeAfter(lost_slot(stop))),
        Condition::KeepsSet => Some(Hint::SetBeforeLoop),
        Condition::Lifted(_) => lifted(stop),
        Condition::Typed(_)
        | Condition::Printable(_)
        | Condition::Readable(_)
        | Condition::Behaviour(_)
        | Condition::Counted(_, _)
        | Condition::Unfit(_, _)
        | Condition::Isolated(_)
        | Condition::Lent(_) => None,
    }
}
