//! Tasks that look at a truth value and choose what to do next.
ghost use Rattle.std.specs.Prelude.{◌≡◌, ◌<◌, length, drop, slice_get, Some, IfOk, OnErr};
ghost use Rattle.pc_core.specs.declared.kinds.Connective.TheVariants as joins;
ghost use Rattle.pc_semantics.specs.Configurations.{Goes, with_stack, pop};
ghost use Rattle.pc_semantics.specs.Evaluation as spec;
ghost use Rattle.pc_semantics.specs.Parts as parts;
ghost use Rattle.pc_semantics.specs.Parts.{at_node};
ghost use Rattle.pc_tasks.specs.Inside.{relieved, within};

use crate::frames::go_on_with;
use crate::values::none;
use pc_core::{Connective, Core};
use pc_heap::Value;
use pc_semantics::{Frame, Lack, Outcome, Task};
use std::alloc::AllocError;

// The left side of an `and`: if it is false, it is the value.
fn test_and(frame: &mut Frame, children: &[u32]) -> Outcome
    requires { 0 < length frame.old.tasks }
    ensures { within frame.old (pop (relieved frame.old) (spec.truth (spec.decided joins.And children.now))) ≡ Some (result, frame.new) }
{
    let Some(Value::Truth(truth)) = frame.stack.top() else {
        return Outcome::Lacks(Lack::Value);
    };
    if !*truth {
        let _ = frame.tasks.pop();
        return Outcome::Moved;
    }
    right_side(frame, children)
}

// The left side of an `or`: if it is true, it is the value.
fn test_or(frame: &mut Frame, children: &[u32]) -> Outcome
    requires { 0 < length frame.old.tasks }
    ensures { within frame.old (pop (relieved frame.old) (spec.truth (spec.decided joins.Or children.now))) ≡ Some (result, frame.new) }
{
    let Some(Value::Truth(truth)) = frame.stack.top() else {
        return Outcome::Lacks(Lack::Value);
    };
    if *truth {
        let _ = frame.tasks.pop();
        return Outcome::Moved;
    }
    right_side(frame, children)
}

// The value on top is removed, and the right side is evaluated.
fn right_side(frame: &mut Frame, children: &[u32]) -> Outcome
    requires value { 0 < length frame.old.stack }
    requires task { 0 < length frame.old.tasks }
    ensures { within frame.old (spec.right_side (with_stack (relieved frame.old) (drop 1 frame.old.stack)) children.now) ≡ Some (result, frame.new) }
{
    let [_, right] = children else {
        return Outcome::Lacks(Lack::Value);
    };
    drop(frame.stack.pop());
    let _ = frame.tasks.replace_top(Task::Eval(*right));
    Outcome::Moved
}

/// The task Test of this node: the left side of an `and` or `or` decides, or the right side is evaluated.
pub fn test(core: &Core, frame: &mut Frame, number: u32) -> Outcome
    requires { 0 < length frame.old.tasks }
    ensures { within frame.old (at_node (slice_get core.now.nodes number) (λ x. spec.test_task (relieved frame.old) x.children x.kind)) ≡ Some (result, frame.new) }
{
    let Some(node) = core.node_at(number) else {
        return Outcome::Lacks(Lack::Value);
    };
    match node.kind.connective() {
        Some(Connective::And) => test_and(frame, node.children.as_slice()),
        Some(Connective::Or) => test_or(frame, node.children.as_slice()),
        None => Outcome::Lacks(Lack::Value),
    }
}

/// The task Branch of this node: one of the two branches is evaluated.
pub fn branch(core: &Core, frame: &mut Frame, number: u32) -> Outcome
    requires { 0 < length frame.old.tasks }
    ensures { within frame.old (at_node (slice_get core.now.nodes number) (λ x. parts.branch_task (relieved frame.old) x.children)) ≡ Some (result, frame.new) }
{
    match core.node_at(number) {
        Some(node) => take_branch(frame, node.children.as_slice()),
        None => Outcome::Lacks(Lack::Value),
    }
}

// One of the two branches is evaluated.
fn take_branch(frame: &mut Frame, children: &[u32]) -> Outcome
    requires { 0 < length frame.old.tasks }
    ensures { within frame.old (parts.branch_task (relieved frame.old) children.now) ≡ Some (result, frame.new) }
{
    let Some(Value::Truth(truth)) = frame.stack.top() else {
        return Outcome::Lacks(Lack::Value);
    };
    let [_, then, otherwise] = children else {
        return Outcome::Lacks(Lack::Value);
    };
    let next = if *truth { *then } else { *otherwise };
    drop(frame.stack.pop());
    let _ = frame.tasks.replace_top(Task::Eval(next));
    Outcome::Moved
}

/// The task Loop of this node: the body is evaluated, its value is dropped, and the whole loop follows again; or the
/// value is None.
pub fn go_round(core: &Core, frame: &mut Frame, number: u32) -> Result<Outcome, AllocError>
    requires { 0 < length frame.old.tasks }
    ensures ok { IfOk result (λ o. within frame.old (at_node (slice_get core.now.nodes number) (λ x. parts.loop_task (relieved frame.old) number x.children)) ≡ Some (o, frame.new)) }
    ensures err { OnErr result (frame.new ≡ frame.old) }
{
    match core.node_at(number) {
        Some(node) => turn(frame, number, node.children.as_slice()),
        None => Ok(Outcome::Lacks(Lack::Value)),
    }
}

// A turn of the `while` with these children, or its end.
fn turn(frame: &mut Frame, number: u32, children: &[u32]) -> Result<Outcome, AllocError>
    requires { 0 < length frame.old.tasks }
    ensures ok { IfOk result (λ o. within frame.old (parts.loop_task (relieved frame.old) number children.now) ≡ Some (o, frame.new)) }
    ensures err { OnErr result (frame.new ≡ frame.old) }
{
    let Some(Value::Truth(truth)) = frame.stack.top() else {
        return Ok(Outcome::Lacks(Lack::Value));
    };
    let [_, body] = children else {
        return Ok(Outcome::Lacks(Lack::Value));
    };
    if *truth {
        go_on_with(
            frame,
            &[Task::Eval(*body), Task::Discard, Task::Eval(number)],
        )?;
        drop(frame.stack.pop());
    } else {
        drop(frame.stack.replace_top(none()));
        let _ = frame.tasks.pop();
    }
    Ok(Outcome::Moved)
}

/// The task Discard: the top is removed.
pub fn discard(frame: &mut Frame) -> Outcome
    requires { 0 < length frame.old.tasks }
    ensures { within frame.old (pop (relieved frame.old) (λ v g. Goes g)) ≡ Some (result, frame.new) }
{
    let Some(value) = frame.stack.pop() else {
        return Outcome::Lacks(Lack::Value);
    };
    drop(value);
    let _ = frame.tasks.pop();
    Outcome::Moved
}
