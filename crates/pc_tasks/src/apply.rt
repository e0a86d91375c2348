//! Operators applied to the values on the stack.
ghost use Rattle.std.specs.Prelude.{◌≡◌, ◌<◌, length, drop, slice_get, Some, IfOk, OnErr};
ghost use Rattle.pc_semantics.specs.Configurations.{with_stack, pop};
ghost use Rattle.pc_semantics.specs.Parts as parts;
ghost use Rattle.pc_semantics.specs.Evaluation as spec;
ghost use Rattle.pc_semantics.specs.Parts.{at_node};
ghost use Rattle.pc_tasks.specs.Applied.{applied_to};
ghost use Rattle.pc_tasks.specs.Inside.{relieved, within};

use crate::identity::{same_truth, same_value};
use crate::operators::{Applied, binary, negated};
use pc_core::{Core, Operation};
use pc_heap::Value;
use pc_semantics::{Frame, Lack, Outcome};
use pc_tree::Op;
use std::alloc::{AllocError, Global};

// The result of an operator replaces the top.
fn replace_one(frame: &mut Frame, applied: Applied) -> Outcome
    requires operand { 0 < length frame.old.stack }
    requires task { 0 < length frame.old.tasks }
    ensures { within frame.old (applied_to (with_stack (relieved frame.old) (drop 1 frame.old.stack)) applied) ≡ Some (result, frame.new) }
{
    match applied {
        Applied::Gives(value) => {
            drop(frame.stack.replace_top(value));
            let _ = frame.tasks.pop();
            Outcome::Moved
        }
        Applied::OtherKind => Outcome::Lacks(Lack::Value),
        Applied::TooLong => Outcome::TooLong,
    }
}

// The result of an operator replaces the top two values.
#[inline(always)]
fn replace_two(frame: &mut Frame, applied: Applied) -> Outcome
    requires operands { 1 < length frame.old.stack }
    requires task { 0 < length frame.old.tasks }
    ensures { within frame.old (applied_to (with_stack (relieved frame.old) (drop 2 frame.old.stack)) applied) ≡ Some (result, frame.new) }
{
    match applied {
        Applied::Gives(value) => {
            drop(frame.stack.pop());
            drop(frame.stack.replace_top(value));
            let _ = frame.tasks.pop();
            Outcome::Moved
        }
        Applied::OtherKind => Outcome::Lacks(Lack::Value),
        Applied::TooLong => Outcome::TooLong,
    }
}

// A binary operator: the right operand is on top.
#[inline(always)]
fn apply_binary(alloc: Global, frame: &mut Frame, op: Op) -> Result<Outcome, AllocError>
    requires { 0 < length frame.old.tasks }
    ensures ok { IfOk result (λ o. within frame.old (pop (relieved frame.old) (λ w g. pop g (λ v h. spec.binary h op v w))) ≡ Some (o, frame.new)) }
    ensures err { OnErr result (frame.new ≡ frame.old) }
{
    let Some(right) = frame.stack.top() else {
        return Ok(Outcome::Lacks(Lack::Value));
    };
    let Some(left) = frame.stack.peek(1) else {
        return Ok(Outcome::Lacks(Lack::Value));
    };
    let applied = binary(alloc, op, left, right)?;
    Ok(replace_two(frame, applied))
}

// `is` or `isnt`.
fn apply_same(frame: &mut Frame, wanted: bool) -> Outcome
    requires { 0 < length frame.old.tasks }
    ensures { within frame.old (pop (relieved frame.old) (λ w g. pop g (λ v h. parts.compared h wanted v w))) ≡ Some (result, frame.new) }
{
    let Some(right) = frame.stack.top() else {
        return Outcome::Lacks(Lack::Value);
    };
    let Some(left) = frame.stack.peek(1) else {
        return Outcome::Lacks(Lack::Value);
    };
    let same = same_truth(wanted, same_value(left, right));
    replace_two(frame, Applied::Gives(Value::Truth(same)))
}

// `not`.
fn apply_not(frame: &mut Frame) -> Outcome
    requires { 0 < length frame.old.tasks }
    ensures { within frame.old (pop (relieved frame.old) (λ v g. parts.negated g v)) ≡ Some (result, frame.new) }
{
    let Some(value) = frame.stack.top() else {
        return Outcome::Lacks(Lack::Value);
    };
    let applied = negated(value);
    replace_one(frame, applied)
}

/// The task Apply of this node: its operator takes its operands, and gives its result.
#[inline(always)]
pub fn apply(
    alloc: Global,
    core: &Core,
    frame: &mut Frame,
    number: u32,
) -> Result<Outcome, AllocError>
    requires { 0 < length frame.old.tasks }
    ensures ok { IfOk result (λ o. within frame.old (at_node (slice_get core.now.nodes number) (λ x. spec.apply_task (relieved frame.old) x.kind)) ≡ Some (o, frame.new)) }
    ensures err { OnErr result (frame.new ≡ frame.old) }
{
    let Some(node) = core.node_at(number) else {
        return Ok(Outcome::Lacks(Lack::Value));
    };
    match node.kind.applied_operation() {
        Some(Operation::Binary(op)) => apply_binary(alloc, frame, op),
        Some(Operation::Same(wanted)) => Ok(apply_same(frame, wanted)),
        Some(Operation::Not) => Ok(apply_not(frame)),
        None => Ok(Outcome::Lacks(Lack::Value)),
    }
}
