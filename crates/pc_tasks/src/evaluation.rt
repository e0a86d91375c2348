//! The evaluation of nodes, and what it is before it is done.
ghost use Rattle.std.specs.Prelude.{◌≡◌, ◌<◌, ◌∷◌, ◌++◌, [], ℕ, length, None, Some, option_to_list, slice_get, IfOk, OnOk, OnErr, List as Sequence};
ghost use Rattle.pc_semantics.specs.Ahead.{by_move};
ghost use Rattle.pc_semantics.specs.Configurations.{Goes, doing};
ghost use Rattle.pc_semantics.specs.Evaluation as spec;
ghost use Rattle.pc_semantics.specs.Parts as parts;
ghost use Rattle.pc_semantics.specs.declared.frames.Frame.{Frame};
ghost use Rattle.pc_semantics.specs.declared.frames.Task.{Task};
ghost use Rattle.pc_tasks.specs.Inside.{relieved, within};

use crate::frames::{go_on_with, push_value};
use crate::values::none;
use pc_core::{Children, Core, NodeKind};
use pc_heap::{Text, Value};
use pc_semantics::{Ahead, Frame, Lack, Outcome, Task};
use std::alloc::AllocError;

// A slot's value is pushed.
#[inline(always)]
fn push_slot(frame: &mut Frame, slot: u32) -> Result<Outcome, AllocError>
    requires { 0 < length frame.old.tasks }
    ensures ok { IfOk result (λ o. within frame.old (parts.push_slot (relieved frame.old) (slice_get frame.old.slots slot)) ≡ Some (o, frame.new)) }
    ensures err { OnErr result (frame.new ≡ frame.old) }
{
    let Some(value) = frame.slots.get(slot as usize) else {
        return Ok(Outcome::Lacks(Lack::Slot));
    };
    let value = value.copy()?;
    push_value(frame, value)
}

// A slot's value is pushed, and the slot becomes empty.
fn take_slot(frame: &mut Frame, slot: u32) -> Result<Outcome, AllocError>
    requires { 0 < length frame.old.tasks }
    ensures ok { IfOk result (λ o. within frame.old (parts.take_slot (relieved frame.old) slot (slice_get frame.old.slots slot)) ≡ Some (o, frame.new)) }
    ensures err { OnErr result (frame.new ≡ frame.old) }
{
    let place = slot as usize;
    if frame.slots.get(place).is_none() {
        return Ok(Outcome::Lacks(Lack::Slot));
    }
    frame.stack.push(none())?;
    if let Some(value) = frame.slots.take(place) {
        drop(frame.stack.replace_top(value));
    }
    let _ = frame.tasks.pop();
    Ok(Outcome::Moved)
}

// All children are evaluated, and then this task is done.
#[tactic(auto, using(std::proofs::Common::append_assoc))]
#[inline(always)]
fn children_first(frame: &mut Frame, children: &Children, then: Task) -> Result<Outcome, AllocError>
    requires { 0 < length frame.old.tasks }
    ensures ok { IfOk result (λ o. within frame.old (spec.by_way (relieved frame.old) children.now (spec.AllThen then)) ≡ Some (o, frame.new)) }
    ensures err { OnErr result (frame.new ≡ frame.old) }
{
    let before = frame.tasks.replace_top(then);
    if let Err(refused) = frame.tasks.push_evaluations(children) {
        let _ = frame.tasks.replace_top(before);
        return Err(refused);
    }
    Ok(Outcome::Moved)
}

// The first child is evaluated, and then this task is done, if there is one.
fn first_then(
    frame: &mut Frame,
    children: &[u32],
    then: Option<Task>,
) -> Result<Outcome, AllocError>
    requires { 0 < length frame.old.tasks }
    ensures ok { IfOk result (λ o. within frame.old (spec.first_then (relieved frame.old) children.now (option_to_list then)) ≡ Some (o, frame.new)) }
    ensures err { OnErr result (frame.new ≡ frame.old) }
{
    let Some(child) = children.first() else {
        return Ok(Outcome::Lacks(Lack::Value));
    };
    match then {
        Some(task) => go_on_with(frame, &[Task::Eval(*child), task])?,
        None => go_on_with(frame, &[Task::Eval(*child)])?,
    }
    Ok(Outcome::Moved)
}

// The items of a sequence, one after another: every value but the last is dropped.
fn items_first(frame: &mut Frame, children: &Children) -> Result<Outcome, AllocError>
    requires { 0 < length frame.old.tasks }
    ensures ok { IfOk result (λ o. within frame.old (Goes (doing (relieved frame.old) (spec.item_tasks children.now))) ≡ Some (o, frame.new)) }
    ensures err { OnErr result (frame.new ≡ frame.old) }
{
    frame.tasks.go_on_with_items(children)?;
    Ok(Outcome::Moved)
}

// The evaluation of a node of this kind, with these children.
#[inline(always)]
fn evaluate(
    frame: &mut Frame,
    number: u32,
    children: &Children,
    kind: &NodeKind,
) -> Result<Outcome, AllocError>
    requires { 0 < length frame.old.tasks }
    ensures ok { IfOk result (λ o. within frame.old (spec.evaluate (relieved frame.old) number children.now kind.now) ≡ Some (o, frame.new)) }
    ensures err { OnErr result (frame.new ≡ frame.old) }
{
    match kind {
        NodeKind::Number(number) => push_value(frame, Value::Num(*number)),
        NodeKind::Truth(truth) => push_value(frame, Value::Truth(*truth)),
        NodeKind::Text(text) => push_value(frame, Value::Text(Text::new(text.share()?))),
        NodeKind::Prim(entity) => push_value(frame, Value::Prim(*entity)),
        NodeKind::This => push_slot(frame, 0),
        NodeKind::Local(slot) => push_slot(frame, *slot),
        NodeKind::Consume(slot) => take_slot(frame, *slot),
        NodeKind::Field(_) => children_first(frame, children, Task::Get(number)),
        NodeKind::SetField(_) => children_first(frame, children, Task::Put(number)),
        NodeKind::Define(_) | NodeKind::Assign(_) => {
            children_first(frame, children, Task::Store(number))
        }
        NodeKind::New(_) => children_first(frame, children, Task::Make(number)),
        NodeKind::Spawn(_) => children_first(frame, children, Task::Spawn(number)),
        NodeKind::Call(_) => children_first(frame, children, Task::Invoke(number)),
        NodeKind::Binary(_) | NodeKind::Not | NodeKind::Same(_) => {
            children_first(frame, children, Task::Apply(number))
        }
        NodeKind::And | NodeKind::Or => first_then(
            frame,
            children.as_slice(),
            Some(Task::Test(number)),
        ),
        NodeKind::If => first_then(frame, children.as_slice(), Some(Task::Branch(number))),
        NodeKind::While => first_then(frame, children.as_slice(), Some(Task::Loop(number))),
        NodeKind::Seq => items_first(frame, children),
        NodeKind::Recover(_) => first_then(frame, children.as_slice(), None),
        NodeKind::Body => first_then(frame, children.as_slice(), Some(Task::Return)),
    }
}

/// The task Eval of this node: its value is pushed, or the tasks that compute it come first.
#[inline(always)]
pub fn evaluate_node(core: &Core, frame: &mut Frame, number: u32) -> Result<Outcome, AllocError>
    requires { 0 < length frame.old.tasks }
    ensures ok { IfOk result (λ o. within frame.old (parts.evaluate_node (relieved frame.old) number (slice_get core.now.nodes number)) ≡ Some (o, frame.new)) }
    ensures err { OnErr result (frame.new ≡ frame.old) }
{
    let Some(node) = core.node_at(number) else {
        return Ok(Outcome::Lacks(Lack::Value));
    };
    evaluate(frame, number, &node.children, &node.kind)
}

// ---- before it is done

// The value of a slot is pushed, or taken out of the slot.
fn slot_ahead(frame: &Frame, slot: u32) -> Ahead
    ensures read { result ≡ by_move (parts.push_slot (relieved frame.now) (slice_get frame.now.slots slot)) }
    ensures taken { result ≡ by_move (parts.take_slot (relieved frame.now) slot (slice_get frame.now.slots slot)) }
{
    match frame.slots.get(slot as usize) {
        Some(_) => Ahead::Task,
        None => Ahead::Lacks,
    }
}

// The first of these nodes is evaluated.
fn first_ahead(children: &[u32]) -> Ahead
    ensures { (f : Frame) (then : Sequence Task) → result ≡ by_move (spec.first_then f children.now then) }
{
    match children.first() {
        Some(_) => Ahead::Task,
        None => Ahead::Lacks,
    }
}

/// What the evaluation of a node of this kind, with these children, is before it is done. It does not allocate.
pub fn evaluation_ahead(frame: &Frame, children: &[u32], kind: &NodeKind) -> Ahead
    ensures { (n : ℕ) → result ≡ by_move (spec.evaluate (relieved frame.now) n children.now kind.now) }
{
    match kind {
        NodeKind::Number(_)
        | NodeKind::Truth(_)
        | NodeKind::Text(_)
        | NodeKind::Prim(_)
        | NodeKind::Field(_)
        | NodeKind::SetField(_)
        | NodeKind::Define(_)
        | NodeKind::Assign(_)
        | NodeKind::New(_)
        | NodeKind::Spawn(_)
        | NodeKind::Call(_)
        | NodeKind::Binary(_)
        | NodeKind::Not
        | NodeKind::Same(_)
        | NodeKind::Seq => Ahead::Task,
        NodeKind::This => slot_ahead(frame, 0),
        NodeKind::Local(place) | NodeKind::Consume(place) => slot_ahead(frame, *place),
        NodeKind::And
        | NodeKind::Or
        | NodeKind::If
        | NodeKind::While
        | NodeKind::Recover(_)
        | NodeKind::Body => first_ahead(children),
    }
}
