//! The arguments of calls and messages.
ghost use Rattle.std.specs.Prelude.{◌≡◌, ◌+◌, ◌-◌, ◌<◌, ◌≤◌, [], length, drop, Some, None, MatchOption, IfSome, OnSome, IfOk};
ghost use Rattle.pc_semantics.specs.Configurations.{popped};

use pc_heap::Value;
use pc_semantics::{Arguments, Message, Stack};
use std::alloc::{AllocError, Global};

/// The values of this number of arguments, in the order in which they were pushed. `None` iff there are fewer.
pub fn arguments_on(stack: &Stack<Value>, count: usize) -> Option<&[Value]>
    ensures values { MatchOption result
        (popped count stack.now [] ≡ None)
        (λ values. popped count stack.now [] ≡ Some (values.now, drop count stack.now)) }
    ensures len { IfSome result (λ values. length values.now ≡ count) }
    ensures enough { OnSome result (count ≤ length stack.now) }
{
    stack.topmost(count)
}

/// The values of one argument fewer than this number, below the receiver on top. `None` iff there are fewer.
pub fn arguments_below(stack: &Stack<Value>, count: usize) -> Option<&[Value]>
    requires some { 0 < count }
    requires top { 0 < length stack.now }
    ensures values { MatchOption result
        (popped (count - 1) (drop 1 stack.now) [] ≡ None)
        (λ values. popped (count - 1) (drop 1 stack.now) [] ≡ Some (values.now, drop count stack.now)) }
    ensures len { IfSome result (λ values. length values.now + 1 ≡ count) }
    ensures enough { OnSome result (count ≤ length stack.now) }
{
    let values = stack.topmost(count)?;
    let (_, below) = values.split_last()?;
    Some(below)
}

// Copies of values, as the arguments of a message.
fn copied(alloc: Global, values: &[Value]) -> Result<Arguments, AllocError>
    ensures { IfOk result (λ arguments. arguments ≡ values.now) }
{
    let mut arguments = Arguments::new(alloc);
    for value in values {
        arguments.push(value.copy()?)?;
    }
    Ok(arguments)
}

/// A message of a method with copies of these arguments.
pub fn message_of(alloc: Global, number: u32, arguments: &[Value]) -> Result<Message, AllocError>
    ensures { IfOk result (λ message. message ≡ record { method = number; arguments = arguments.now }) }
{
    let arguments = copied(alloc, arguments)?;
    Ok(Message {
        method: number,
        arguments,
    })
}
