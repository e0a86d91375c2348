//! The first condition of a rule that does not hold for a node.
ghost use Rattle.std.specs.Prelude.{◌≡◌, ◌∷◌, ◌++◌, [], slice_get};
ghost use Rattle.pc_ann.specs.declared.annotation.Rule.TheVariants as rule;
ghost use Rattle.pc_core.specs.declared.nodes.NodeKind.TheVariants as node;
ghost use Rattle.pc_rules.specs.Children.{type_at as type_is};
ghost use Rattle.pc_explain_conditions.specs.declared.condition.Condition.TheVariants as asks;
ghost use Rattle.pc_explain_conditions.specs.Conditions as asked_is;
ghost use Rattle.pc_explain_conditions.specs.Failing as spec;

use crate::children::{callee, receiver_index, type_at};
use crate::chosen::is_function;
use crate::condition::Condition;
use crate::fields::{child_field, own_field};
use crate::holding::holds;
use crate::site::Site;
use crate::slots::slot_type;
use pc_ann::Rule;
use pc_core::{FieldInfo, Method, NodeKind, ParamInfo};

const U64: u32 = 1;

const BOOL: u32 = 2;

const STRING: u32 = 3;

// The first of these that does not hold.
fn first_false(site: &Site, asked: &[Condition]) -> Option<Condition>
    ensures { result ≡ spec.first_false (spec.holds_of site.now.core.now site.now.slots.now site.now.children.now site.now.node.now (site.now.live, site.now.set)) asked.now }
{
    for condition in asked {
        if !holds(site, *condition) {
            return Some(*condition);
        }
    }
    None
}

// What is required of arguments that go to these parameters.
fn argument_failing(site: &Site, params: &[ParamInfo]) -> Option<Condition>
    ensures { result ≡ spec.first_false (spec.holds_of site.now.core.now site.now.slots.now site.now.children.now site.now.node.now (site.now.live, site.now.set)) (asked_is.argument_conditions 0 params.now) }
{
    let mut at = 0;
    for param in params {
        let typed = Condition::Typed(at);
        if !holds(site, typed) {
            return Some(typed);
        }
        let under = Condition::Under(at, param.entity);
        if !holds(site, under) {
            return Some(under);
        }
        let fitting = Condition::Fits(at, param.cap);
        if !holds(site, fitting) {
            return Some(fitting);
        }
        at += 1;
    }
    None
}

// The same, and that their number is right.
fn arguments_failing(site: &Site, count: usize, params: &[ParamInfo]) -> Option<Condition>
    ensures { result ≡ spec.first_false (spec.holds_of site.now.core.now site.now.slots.now site.now.children.now site.now.node.now (site.now.live, site.now.set)) (asked_is.all_go count params.now) }
{
    if count == params.len() {
        argument_failing(site, params)
    } else {
        Some(Condition::Counted(count, params.len()))
    }
}

// What is required of arguments along with a receiver that is lent.
fn sent_failing(site: &Site, params: &[ParamInfo]) -> Option<Condition>
    ensures { result ≡ spec.first_false (spec.holds_of site.now.core.now site.now.slots.now site.now.children.now site.now.node.now (site.now.live, site.now.set)) (asked_is.arguments_sent 0 params.now) }
{
    let mut at = 0;
    for param in params {
        let sent = Condition::Sent(at, param.cap);
        if !holds(site, sent) {
            return Some(sent);
        }
        at += 1;
    }
    None
}

// What is required for reading a field.
fn get_failing(site: &Site, name: u32) -> Option<Condition>
    ensures { result ≡ spec.first_false (spec.holds_of site.now.core.now site.now.slots.now site.now.children.now site.now.node.now (site.now.live, site.now.set)) (asked_is.conditions site.now.core.now site.now.slots.now site.now.children.now site.now.node.now rule.Get (node.Field name)) }
{
    let failing = first_false(site, &[Condition::Typed(0), Condition::HasField(0, name)]);
    if failing.is_some() {
        return failing;
    }
    match child_field(site.core, site.children, 0, name) {
        None => None,
        Some((_, field)) => first_false(site, &[Condition::Seen(0, field.cap)]),
    }
}

// What is required for reading a field of `this` before all are set.
fn get_own_failing(site: &Site, name: u32) -> Option<Condition>
    ensures { result ≡ spec.first_false (spec.holds_of site.now.core.now site.now.slots.now site.now.children.now site.now.node.now (site.now.live, site.now.set)) (asked_is.conditions site.now.core.now site.now.slots.now site.now.children.now site.now.node.now rule.GetOwn (node.Field name)) }
{
    let failing = first_false(site, &[Condition::HasOwnField(name)]);
    if failing.is_some() {
        return failing;
    }
    match own_field(site.core, site.node, name) {
        None => None,
        Some((index, _)) => first_false(site, &[Condition::Set(index)]),
    }
}

// What is required of the field that is written, once it is found.
fn written_failing(site: &Site, field: FieldInfo) -> Option<Condition>
    ensures { result ≡ spec.first_false (spec.holds_of site.now.core.now site.now.slots.now site.now.children.now site.now.node.now (site.now.live, site.now.set)) (asked_is.put_conditions (0, field)) }
{
    first_false(
        site,
        &[
            Condition::NotFixed(field.fixed),
            Condition::Under(0, field.entity),
            Condition::Fits(0, field.cap),
            Condition::Writable(1, field.cap),
            Condition::Enters(field.cap),
        ],
    )
}

// What is required for writing a field.
fn put_failing(site: &Site, name: u32) -> Option<Condition>
    ensures { result ≡ spec.first_false (spec.holds_of site.now.core.now site.now.slots.now site.now.children.now site.now.node.now (site.now.live, site.now.set)) (asked_is.conditions site.now.core.now site.now.slots.now site.now.children.now site.now.node.now rule.Put (node.SetField name)) }
{
    let failing = first_false(
        site,
        &[
            Condition::Typed(0),
            Condition::Typed(1),
            Condition::HasField(1, name),
        ],
    );
    if failing.is_some() {
        return failing;
    }
    match child_field(site.core, site.children, 1, name) {
        None => None,
        Some((_, field)) => written_failing(site, field),
    }
}

// What is required of the own field, once it is found.
fn own_written_failing(site: &Site, index: u32, field: FieldInfo) -> Option<Condition>
    ensures { result ≡ spec.first_false (spec.holds_of site.now.core.now site.now.slots.now site.now.children.now site.now.node.now (site.now.live, site.now.set)) (asked_is.put_own_conditions (index, field)) }
{
    first_false(
        site,
        &[
            Condition::Typed(0),
            Condition::SetOnce(field.fixed, index),
            Condition::Under(0, field.entity),
            Condition::Fits(0, field.cap),
        ],
    )
}

// What is required for writing a field of `this` before all are set.
fn put_own_failing(site: &Site, name: u32) -> Option<Condition>
    ensures { result ≡ spec.first_false (spec.holds_of site.now.core.now site.now.slots.now site.now.children.now site.now.node.now (site.now.live, site.now.set)) (asked_is.conditions site.now.core.now site.now.slots.now site.now.children.now site.now.node.now rule.PutOwn (node.SetField name)) }
{
    let failing = first_false(site, &[Condition::HasOwnField(name)]);
    if failing.is_some() {
        return failing;
    }
    match own_field(site.core, site.node, name) {
        None => None,
        Some((index, field)) => own_written_failing(site, index, field),
    }
}

// What is required of a definition.
fn define_failing(site: &Site, slot: u32) -> Option<Condition>
    ensures { result ≡ spec.first_false (spec.holds_of site.now.core.now site.now.slots.now site.now.children.now site.now.node.now (site.now.live, site.now.set)) (asked_is.conditions site.now.core.now site.now.slots.now site.now.children.now site.now.node.now rule.Define (node.Define slot)) }
{
    match slot_type(site.core, site.slots, site.node.method, slot) {
        None => None,
        Some((entity, cap)) => first_false(
            site,
            &[
                Condition::Typed(0),
                Condition::Under(0, entity),
                Condition::Fits(0, cap),
            ],
        ),
    }
}

// What is required of an assignment.
fn assign_failing(site: &Site, slot: u32) -> Option<Condition>
    ensures { result ≡ spec.first_false (spec.holds_of site.now.core.now site.now.slots.now site.now.children.now site.now.node.now (site.now.live, site.now.set)) (asked_is.conditions site.now.core.now site.now.slots.now site.now.children.now site.now.node.now rule.Assign (node.Assign slot)) }
{
    let failing = first_false(
        site,
        &[
            Condition::Typed(0),
            Condition::Variable(slot),
            Condition::Reached(slot),
        ],
    );
    if failing.is_some() {
        return failing;
    }
    match slot_type(site.core, site.slots, site.node.method, slot) {
        None => None,
        Some((entity, cap)) => {
            first_false(
                site,
                &[Condition::Under(0, entity), Condition::Fits(0, cap)],
            )
        }
    }
}

// What is required of a constructor call.
fn new_failing(site: &Site, method: u32) -> Option<Condition>
    ensures { result ≡ spec.first_false (spec.holds_of site.now.core.now site.now.slots.now site.now.children.now site.now.node.now (site.now.live, site.now.set)) (asked_is.conditions site.now.core.now site.now.slots.now site.now.children.now site.now.node.now rule.New (node.New method)) }
{
    match site.core.method_at(method) {
        None => None,
        Some(found) => arguments_failing(site, site.children.len(), found.params.as_slice()),
    }
}

// What is required of the function that is called, once it is found.
#[tactic(auto, using(crate::proofs::Firsts::first_of_both))]
fn called_failing(site: &Site, receiver: usize, method: &Method) -> Option<Condition>
    ensures { result ≡ spec.first_false (spec.holds_of site.now.core.now site.now.slots.now site.now.children.now site.now.node.now (site.now.live, site.now.set)) (asked_is.call_conditions receiver method.now) }
{
    let failing = first_false(site, &[Condition::Function(method.kind)]);
    if failing.is_some() {
        return failing;
    }
    let failing = arguments_failing(site, receiver, method.params.as_slice());
    if failing.is_some() {
        return failing;
    }
    first_false(site, &[Condition::Fits(receiver, method.receiver)])
}

// What is required of the receiver of a call that lends it.
fn lent_failing(site: &Site, receiver: usize, method: &Method) -> Option<Condition>
    ensures { result ≡ spec.first_false (spec.holds_of site.now.core.now site.now.slots.now site.now.children.now site.now.node.now (site.now.live, site.now.set)) (asks.Unfit receiver method.now.receiver ∷ asks.Isolated receiver ∷ asks.Lent method.now.receiver ∷ asked_is.arguments_sent 0 method.now.params) }
{
    let failing = first_false(
        site,
        &[
            Condition::Unfit(receiver, method.receiver),
            Condition::Isolated(receiver),
            Condition::Lent(method.receiver),
        ],
    );
    if failing.is_some() {
        return failing;
    }
    sent_failing(site, method.params.as_slice())
}

// What is required of the function to which the receiver is lent, once it is found.
#[tactic(auto, using(crate::proofs::Firsts::first_of_both))]
fn recovered_failing(site: &Site, receiver: usize, method: &Method) -> Option<Condition>
    ensures { result ≡ spec.first_false (spec.holds_of site.now.core.now site.now.slots.now site.now.children.now site.now.node.now (site.now.live, site.now.set)) (asked_is.call_recover_conditions receiver method.now) }
{
    let failing = first_false(site, &[Condition::Function(method.kind)]);
    if failing.is_some() {
        return failing;
    }
    let failing = arguments_failing(site, receiver, method.params.as_slice());
    if failing.is_some() {
        return failing;
    }
    lent_failing(site, receiver, method)
}

// What is required of the behaviour to which a message is sent, once it is found.
fn sent_to_failing(site: &Site, receiver: usize, method: &Method) -> Option<Condition>
    ensures { result ≡ spec.first_false (spec.holds_of site.now.core.now site.now.slots.now site.now.children.now site.now.node.now (site.now.live, site.now.set)) (asked_is.send_conditions receiver method.now) }
{
    let failing = first_false(site, &[Condition::Behaviour(method.kind)]);
    if failing.is_some() {
        return failing;
    }
    arguments_failing(site, receiver, method.params.as_slice())
}

// What is required of a call.
fn call_failing(site: &Site, name: u32) -> Option<Condition>
    ensures { result ≡ spec.first_false (spec.holds_of site.now.core.now site.now.slots.now site.now.children.now site.now.node.now (site.now.live, site.now.set)) (asked_is.conditions site.now.core.now site.now.slots.now site.now.children.now site.now.node.now rule.Call (node.Call name)) }
{
    let receiver = receiver_index(site.children);
    let failing = first_false(
        site,
        &[Condition::Typed(receiver), Condition::HasMethod(name)],
    );
    if failing.is_some() {
        return failing;
    }
    match callee(site.core, site.children, name) {
        None => None,
        Some(method) => called_failing(site, receiver, method),
    }
}

// What is required of a call whose receiver is lent.
fn call_recover_failing(site: &Site, name: u32) -> Option<Condition>
    ensures { result ≡ spec.first_false (spec.holds_of site.now.core.now site.now.slots.now site.now.children.now site.now.node.now (site.now.live, site.now.set)) (asked_is.conditions site.now.core.now site.now.slots.now site.now.children.now site.now.node.now rule.CallRecover (node.Call name)) }
{
    let receiver = receiver_index(site.children);
    let failing = first_false(
        site,
        &[Condition::Typed(receiver), Condition::HasMethod(name)],
    );
    if failing.is_some() {
        return failing;
    }
    match callee(site.core, site.children, name) {
        None => None,
        Some(method) => recovered_failing(site, receiver, method),
    }
}

// What is required of a message.
fn send_failing(site: &Site, name: u32) -> Option<Condition>
    ensures { result ≡ spec.first_false (spec.holds_of site.now.core.now site.now.slots.now site.now.children.now site.now.node.now (site.now.live, site.now.set)) (asked_is.conditions site.now.core.now site.now.slots.now site.now.children.now site.now.node.now rule.Send (node.Call name)) }
{
    let receiver = receiver_index(site.children);
    let failing = first_false(
        site,
        &[Condition::Typed(receiver), Condition::HasMethod(name)],
    );
    if failing.is_some() {
        return failing;
    }
    match callee(site.core, site.children, name) {
        None => None,
        Some(method) => sent_to_failing(site, receiver, method),
    }
}

// What is required for the text of a number or of a truth value.
fn builtin_failing(site: &Site) -> Option<Condition>
    ensures { result ≡ spec.first_false (spec.holds_of site.now.core.now site.now.slots.now site.now.children.now site.now.node.now (site.now.live, site.now.set)) (asks.Counted (asked_is.receiver_index site.now.children.now) 0 ∷ asks.Typed 0 ∷ asks.Printable 0 ∷ asks.Readable 0 ∷ []) }
{
    first_false(
        site,
        &[
            Condition::Counted(receiver_index(site.children), 0),
            Condition::Typed(0),
            Condition::Printable(0),
            Condition::Readable(0),
        ],
    )
}

// Whether a child is a readable value of this entity.
fn read_failing(site: &Site, child: usize, entity: u32) -> Option<Condition>
    ensures { result ≡ spec.first_false (spec.holds_of site.now.core.now site.now.slots.now site.now.children.now site.now.node.now (site.now.live, site.now.set)) (asked_is.reads child entity) }
{
    first_false(
        site,
        &[
            Condition::Typed(child),
            Condition::IsA(child, entity),
            Condition::Readable(child),
        ],
    )
}

// Whether both sides are such values.
fn both_failing(site: &Site, entity: u32) -> Option<Condition>
    ensures { result ≡ spec.first_false (spec.holds_of site.now.core.now site.now.slots.now site.now.children.now site.now.node.now (site.now.live, site.now.set)) (asked_is.both_read entity) }
{
    let failing = read_failing(site, 0, entity);
    if failing.is_some() {
        return failing;
    }
    read_failing(site, 1, entity)
}

// What is required of `==` and `!=`.
fn equal_failing(site: &Site) -> Option<Condition>
    ensures { result ≡ spec.first_false (spec.holds_of site.now.core.now site.now.slots.now site.now.children.now site.now.node.now (site.now.live, site.now.set)) (asks.Typed 0 ∷ asks.Comparable 0 ∷ asks.Readable 0 ∷ asked_is.of_found (type_is site.now.children.now 0) asked_is.same_read) }
{
    match type_at(site.children, 0) {
        None => Some(Condition::Typed(0)),
        Some((entity, _)) => first_false(
            site,
            &[
                Condition::Typed(0),
                Condition::Comparable(0),
                Condition::Readable(0),
                Condition::Typed(1),
                Condition::IsA(1, entity),
                Condition::Readable(1),
            ],
        ),
    }
}

// What is required of a loop.
fn while_failing(site: &Site) -> Option<Condition>
    ensures { result ≡ spec.first_false (spec.holds_of site.now.core.now site.now.slots.now site.now.children.now site.now.node.now (site.now.live, site.now.set)) (asked_is.reads 0 asked_is.bool ++ asks.KeepsLive ∷ asks.KeepsSet ∷ []) }
{
    first_false(
        site,
        &[
            Condition::Typed(0),
            Condition::IsA(0, BOOL),
            Condition::Readable(0),
            Condition::KeepsLive,
            Condition::KeepsSet,
        ],
    )
}

// What is required at the end of a method's body.
fn ended_failing(site: &Site, method: &Method) -> Option<Condition>
    ensures { result ≡ spec.first_false (spec.holds_of site.now.core.now site.now.slots.now site.now.children.now site.now.node.now (site.now.live, site.now.set)) (asked_is.body_conditions method.now) }
{
    if is_function(method.kind) {
        first_false(
            site,
            &[
                Condition::Typed(0),
                Condition::Under(0, method.result.0),
                Condition::Below(0, method.result.1),
            ],
        )
    } else {
        None
    }
}

// What is required of the body of a method.
fn body_failing(site: &Site) -> Option<Condition>
    ensures { result ≡ spec.first_false (spec.holds_of site.now.core.now site.now.slots.now site.now.children.now site.now.node.now (site.now.live, site.now.set)) (asked_is.of_found (slice_get site.now.core.now.methods site.now.node.now.method) asked_is.body_conditions) }
{
    match site.core.method_at(site.node.method) {
        None => None,
        Some(method) => ended_failing(site, method),
    }
}

/// The first condition of the rule that does not hold for the node. `None` also if the rule is not one for such nodes.
pub(crate) fn failing(site: &Site, rule: Rule) -> Option<Condition>
    ensures { result ≡ spec.failing site.now.core.now site.now.slots.now site.now.children.now site.now.node.now (site.now.live, site.now.set) rule }
{
    match (rule, &site.node.kind) {
        (Rule::Local, NodeKind::Local(slot)) | (Rule::Consume, NodeKind::Consume(slot)) => {
            first_false(site, &[Condition::Live(*slot), Condition::Reached(*slot)])
        }
        (Rule::Get, NodeKind::Field(name)) => get_failing(site, *name),
        (Rule::GetOwn, NodeKind::Field(name)) => get_own_failing(site, *name),
        (Rule::Put, NodeKind::SetField(name)) => put_failing(site, *name),
        (Rule::PutOwn, NodeKind::SetField(name)) => put_own_failing(site, *name),
        (Rule::Define, NodeKind::Define(slot)) => define_failing(site, *slot),
        (Rule::Assign, NodeKind::Assign(slot)) => assign_failing(site, *slot),
        (Rule::New, NodeKind::New(method)) | (Rule::Spawn, NodeKind::Spawn(method)) => {
            new_failing(site, *method)
        }
        (Rule::Call, NodeKind::Call(name)) => call_failing(site, *name),
        (Rule::CallRecover, NodeKind::Call(name)) => call_recover_failing(site, *name),
        (Rule::Send, NodeKind::Call(name)) => send_failing(site, *name),
        (Rule::Builtin, NodeKind::Call(_)) => builtin_failing(site),
        (Rule::Arith | Rule::Compare, NodeKind::Binary(_)) => both_failing(site, U64),
        (Rule::Equal, NodeKind::Binary(_)) => equal_failing(site),
        (Rule::Join, NodeKind::Binary(_)) => both_failing(site, STRING),
        (Rule::Logic, NodeKind::Binary(_)) | (Rule::Lazy, NodeKind::And | NodeKind::Or) => {
            both_failing(site, BOOL)
        }
        (Rule::Logic, NodeKind::Not) | (Rule::If, NodeKind::If) => read_failing(site, 0, BOOL),
        (Rule::Identity, NodeKind::Same(_)) => {
            first_false(site, &[Condition::Typed(0), Condition::Typed(1)])
        }
        (Rule::While, NodeKind::While) => while_failing(site),
        (Rule::Recover, NodeKind::Recover(written)) => {
            first_false(site, &[Condition::Typed(0), Condition::Lifted(*written)])
        }
        (Rule::Body, NodeKind::Body) => body_failing(site),
        (_, _) => None,
    }
}
