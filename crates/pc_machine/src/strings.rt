//! `string` of numbers and truth values, which no entity declares.
ghost use Rattle.std.specs.Prelude.{◌≡◌, ◌+◌, decimal, length, IfOk};
ghost use Rattle.pc_semantics.specs.Calls as spec;
ghost use Rattle.pc_semantics.specs.Parts as parts;
ghost use Rattle.pc_semantics.specs.Configurations.{Around};
ghost use Rattle.pc_machine.specs.Plans.{after_call, move_of, PlanFits};
ghost use Rattle.pc_semantics.specs.declared.frames.Frame.{Frame};

use crate::plan::{Change, Plan};
use pc_base::{List, SharedList};
use pc_core::Core;
use pc_heap::{Text, Value};
use pc_semantics::Lack;
use std::alloc::{AllocError, Global};

/// Whether the call of this name with these arguments is a call of `string`.
pub fn is_string(core: &Core, name: u32, arguments: &[Value]) -> bool
    ensures { result ≡ spec.is_string core.now name arguments.now }
{
    if !arguments.is_empty() {
        return false;
    }
    match core.name_at(name) {
        Some(text) => text.as_slice() == b"string".as_slice(),
        None => false,
    }
}

// The text of a number.
fn number_text(alloc: Global, number: u64) -> Result<List<u8>, AllocError>
    ensures { IfOk result (λ text. text ≡ decimal number) }
{
    let text = format!(in alloc; "{number}")?;
    Ok(List::from_vec(text.into_bytes()))
}

// The text of a truth value.
fn truth_text(alloc: Global, truth: bool) -> Result<List<u8>, AllocError>
    ensures { IfOk result (λ text. text ≡ parts.truth_text truth) }
{
    if truth {
        List::from_slice(alloc, b"true")
    } else {
        List::from_slice(alloc, b"false")
    }
}

// The value of `string` for a number or a truth value.
fn text_of(alloc: Global, value: &Value) -> Result<Option<List<u8>>, AllocError>
    ensures { IfOk result (λ text. text ≡ spec.text_of value.now) }
{
    match value {
        Value::Num(number) => Ok(Some(number_text(alloc, *number)?)),
        Value::Truth(truth) => Ok(Some(truth_text(alloc, *truth)?)),
        Value::Text(_) | Value::Prim(_) | Value::At(_) => Ok(None),
    }
}

/// What the call of a name is about to do if it is not a method of the receiver.
pub fn plan_string(
    alloc: Global,
    core: &Core,
    name: u32,
    this: &Value,
    arguments: &[Value],
) -> Result<Plan, AllocError>
    ensures means { IfOk result (λ plan. (around : Around) (f : Frame) → move_of around plan f
        ≡ spec.string_of core.now name this.now arguments.now (after_call (length arguments.now + 1) f)) }
    ensures fits { IfOk result (λ plan. PlanFits plan (length arguments.now + 1)) }
{
    if !is_string(core, name, arguments) {
        return Ok(Plan::Lacks(Lack::Method));
    }
    match text_of(alloc, this)? {
        Some(text) => Ok(Plan::Changes(Change::Gives {
            count: arguments.len() + 1,
            value: Value::Text(Text::new(SharedList::from_list(alloc, text)?)),
        })),
        None => Ok(Plan::Lacks(Lack::Method)),
    }
}
