//! The values of operators.
ghost use Rattle.std.specs.Prelude.{◌≡◌, ◌/◌, ◌%◌, ◌++◌, length, nat_lt, IfOk};
ghost use Rattle.pc_base.specs.Limits.{text_limit};
ghost use Rattle.pc_semantics.specs.declared.frames.Frame.{Frame};
ghost use Rattle.pc_semantics.specs.Evaluation as spec;
ghost use Rattle.pc_semantics.specs.Parts as parts;
ghost use Rattle.pc_tasks.specs.Applied.{applied_to};

use crate::identity::same_truth;
use pc_base::TEXT_LIMIT;
use pc_heap::{Text, Value};
use pc_tree::Op;
use std::alloc::{AllocError, Global};

/// The result of an operator.
#[derive(Drop)]
pub enum Applied {
    /// This value.
    Gives(Value),
    /// None: an operand of another kind is needed.
    OtherKind,
    /// A text that would be longer than a text may be.
    TooLong,
}

// A quotient or remainder by 0 is 0.
fn quotient(left: u64, right: u64) -> u64
    ensures { result ≡ parts.unless_by_zero right (left / right) }
{
    if right == 0 { 0 } else { left / right }
}

fn remainder(left: u64, right: u64) -> u64
    ensures { result ≡ parts.unless_by_zero right (left % right) }
{
    if right == 0 { 0 } else { left % right }
}

/// An operator on two numbers. `None` iff it needs values of another kind.
#[inline(always)]
pub fn of_numbers(op: Op, left: u64, right: u64) -> Option<Value>
    ensures { result ≡ spec.of_numbers op left right }
{
    match op {
        Op::Add => Some(Value::Num(left.wrapping_add(right))),
        Op::Sub => Some(Value::Num(left.wrapping_sub(right))),
        Op::Mul => Some(Value::Num(left.wrapping_mul(right))),
        Op::Div => Some(Value::Num(quotient(left, right))),
        Op::Rem => Some(Value::Num(remainder(left, right))),
        Op::Eq => Some(Value::Truth(left == right)),
        Op::Ne => Some(Value::Truth(left != right)),
        Op::Lt => Some(Value::Truth(left < right)),
        Op::Le => Some(Value::Truth(left <= right)),
        Op::Gt => Some(Value::Truth(left > right)),
        Op::Ge => Some(Value::Truth(left >= right)),
        Op::And | Op::Or | Op::Xor | Op::Is | Op::Isnt => None,
    }
}

/// An operator on two truth values. `None` iff it needs values of another kind.
pub fn of_truths(op: Op, left: bool, right: bool) -> Option<Value>
    ensures { result ≡ spec.of_truths op left right }
{
    match op {
        Op::Eq => Some(Value::Truth(same_truth(left, right))),
        Op::Ne | Op::Xor => Some(Value::Truth(!same_truth(left, right))),
        Op::Add
        | Op::Sub
        | Op::Mul
        | Op::Div
        | Op::Rem
        | Op::Lt
        | Op::Le
        | Op::Gt
        | Op::Ge
        | Op::And
        | Op::Or
        | Op::Is
        | Op::Isnt => None,
    }
}

/// Whether both texts joined would be longer than a text may be.
pub fn is_too_long(left: &Text, right: &Text) -> bool
    ensures { result ≡ nat_lt text_limit (length (left.now ++ right.now)) }
{
    match left.room_behind(TEXT_LIMIT as usize) {
        Some(room) => right.room_behind(room).is_none(),
        None => true,
    }
}

// Both texts joined.
fn joined(alloc: Global, left: &Text, right: &Text) -> Result<Applied, AllocError>
    ensures { IfOk result (λ r. (f : Frame) → applied_to f r ≡ parts.joined_text f (left.now ++ right.now)) }
{
    if is_too_long(left, right) {
        Ok(Applied::TooLong)
    } else {
        Ok(Applied::Gives(Value::Text(Text::join(alloc, left, right)?)))
    }
}

// An operator on two texts.
fn of_texts(alloc: Global, op: Op, left: &Text, right: &Text) -> Result<Applied, AllocError>
    ensures { IfOk result (λ r. (f : Frame) → applied_to f r ≡ spec.of_texts f op left.now right.now) }
{
    match op {
        Op::Add => joined(alloc, left, right),
        Op::Eq => Ok(Applied::Gives(Value::Truth(left.is_equal(right)))),
        Op::Ne => Ok(Applied::Gives(Value::Truth(!left.is_equal(right)))),
        Op::Sub
        | Op::Mul
        | Op::Div
        | Op::Rem
        | Op::Lt
        | Op::Le
        | Op::Gt
        | Op::Ge
        | Op::And
        | Op::Or
        | Op::Xor
        | Op::Is
        | Op::Isnt => Ok(Applied::OtherKind),
    }
}

// A value, if there is one.
#[inline(always)]
fn given(value: Option<Value>) -> Applied
    ensures { (f : Frame) → applied_to f result ≡ parts.push_or_lack f value }
{
    match value {
        Some(value) => Applied::Gives(value),
        None => Applied::OtherKind,
    }
}

/// A binary operator on two values.
#[inline(always)]
pub fn binary(alloc: Global, op: Op, left: &Value, right: &Value) -> Result<Applied, AllocError>
    ensures { IfOk result (λ r. (f : Frame) → applied_to f r ≡ spec.binary f op left.now right.now) }
{
    match (left, right) {
        (Value::Num(left), Value::Num(right)) => Ok(given(of_numbers(op, *left, *right))),
        (Value::Truth(left), Value::Truth(right)) => Ok(given(of_truths(op, *left, *right))),
        (Value::Text(left), Value::Text(right)) => of_texts(alloc, op, left, right),
        (Value::Num(_) | Value::Truth(_) | Value::Text(_) | Value::Prim(_) | Value::At(_), _) => Ok(
            Applied::OtherKind,
        ),
    }
}

/// `not` of a value.
pub fn negated(value: &Value) -> Applied
    ensures { (f : Frame) → applied_to f result ≡ parts.negated f value.now }
{
    match value {
        Value::Truth(truth) => Applied::Gives(Value::Truth(!*truth)),
        Value::Num(_) | Value::Text(_) | Value::Prim(_) | Value::At(_) => Applied::OtherKind,
    }
}
