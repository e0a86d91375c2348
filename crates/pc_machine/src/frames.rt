//! The frames of an actor.
ghost use Rattle.std.specs.Prelude.{◌≡◌, ◌-◌, ◌<◌, ◌≤◌, ◌++◌, ◌∷◌, [], length, map, replicate, slice_get, Some, None, IfSome, IfOk, OnOk, OnErr};
ghost use Rattle.pc_semantics.specs.Configurations.{first_frame, pushed};
ghost use Rattle.pc_semantics.specs.declared.frames.Task.TheVariants.{Eval};
ghost use Rattle.pc_machine.specs.Plans.{after_call, given, entered, ended, frames_changed, Suits};

use crate::plan::Change;
use pc_core::Method;
use pc_heap::Value;
use pc_semantics::{Frame, Slots, Stack, Task, Tasks};
use std::alloc::{AllocError, Global};

// A frame that takes the place of another for a while. It does not allocate.
fn blank(alloc: Global) -> Frame {
    Frame {
        method: 0,
        slots: Slots::new(Vec::new(alloc), 0),
        stack: Stack::new(alloc),
        tasks: Tasks::new(alloc),
    }
}

// Copies of the arguments, each in a slot after those that are filled.
fn fill_arguments(filled: &mut Vec<Option<Value>>, arguments: &[Value]) -> Result<(), AllocError>
    ensures { OnOk result (filled.new.items ≡ filled.old.items ++ map Some arguments.now) }
{
    for argument in arguments {
        filled.push(Some(argument.copy()?))?;
    }
    Ok(())
}

// The values of `this` and of the arguments, each in a slot.
fn argument_slots(
    alloc: Global,
    this: Value,
    arguments: &[Value],
) -> Result<Vec<Option<Value>>, AllocError>
    ensures { IfOk result (λ filled. filled.items ≡ Some this ∷ map Some arguments.now) }
{
    let mut filled = Vec::with_capacity(alloc, arguments.len().saturating_add(1))?;
    filled.push(Some(this))?;
    fill_arguments(&mut filled, arguments)?;
    Ok(filled)
}

// The only task of a method when it begins: its body is evaluated.
fn body_first(alloc: Global, body: u32) -> Result<Tasks, AllocError>
    ensures { IfOk result (λ tasks. tasks ≡ Eval body ∷ []) }
{
    let mut tasks = Tasks::new(alloc);
    tasks.push(Task::Eval(body))?;
    Ok(tasks)
}

/// The frame of a method when it begins, by its number and its body, with `this` and the arguments.
pub fn begin_frame(
    alloc: Global,
    number: u32,
    method: &Method,
    this: Value,
    arguments: &[Value],
    body: u32,
) -> Result<Frame, AllocError>
    ensures { IfOk result (λ frame. frame ≡ first_frame number method.now this arguments.now body) }
{
    let empty = (method.slots as usize)
        .saturating_sub(1)
        .saturating_sub(arguments.len());
    let filled = argument_slots(alloc, this, arguments)?;
    let tasks = body_first(alloc, body)?;
    Ok(Frame {
        method: number,
        slots: Slots::new(filled, empty),
        stack: Stack::new(alloc),
        tasks,
    })
}

// Removes the first task of a frame and its topmost values.
fn finish(frame: &mut Frame, count: usize)
    ensures { frame.new ≡ after_call count frame.old }
{
    let _ = frame.tasks.pop();
    frame.stack.discard(count);
}

// Removes the first task of a frame, and replaces the topmost values by one value.
#[tactic(auto, using(crate::proofs::Stacked::drop_last))]
fn place_value(frame: &mut Frame, count: usize, value: Value)
    requires some { 0 < count }
    requires enough { count ≤ length frame.old.stack }
    ensures { frame.new ≡ pushed (after_call count frame.old) value }
{
    finish(frame, count - 1);
    drop(frame.stack.replace_top(value));
}

/// The running frame goes on with a value in place of the topmost ones. It does not allocate.
pub fn place_top(frames: &mut Stack<Frame>, count: usize, value: Value)
    requires running { 0 < length frames.old }
    requires some { 0 < count }
    requires enough { IfSome (slice_get frames.old 0) (λ f. count ≤ length f.stack) }
    ensures { frames.new ≡ given count value frames.old }
{
    place_value(frames.top_mut(), count, value);
}

// The same, but the count may be 0.
fn push_value(frame: &mut Frame, count: usize, value: Value) -> Result<(), AllocError>
    requires { count ≤ length frame.old.stack }
    ensures ok { OnOk result (frame.new ≡ pushed (after_call count frame.old) value) }
    ensures err { OnErr result (frame.new ≡ frame.old) }
{
    if count > 0 {
        place_value(frame, count, value);
    } else {
        frame.stack.push(value)?;
        let _ = frame.tasks.pop();
    }
    Ok(())
}

// The running frame goes on with a value.
fn give(frames: &mut Stack<Frame>, count: usize, value: Value) -> Result<(), AllocError>
    requires some { 0 < length frames.old }
    requires enough { IfSome (slice_get frames.old 0) (λ f. count ≤ length f.stack) }
    ensures ok { OnOk result (frames.new ≡ given count value frames.old) }
    ensures err { OnErr result (frames.new ≡ frames.old) }
{
    push_value(frames.top_mut(), count, value)
}

// The running frame goes on below another.
fn enter(
    alloc: Global,
    frames: &mut Stack<Frame>,
    count: usize,
    callee: Frame,
) -> Result<(), AllocError>
    requires { 0 < length frames.old }
    ensures ok { OnOk result (frames.new ≡ entered count callee frames.old) }
    ensures err { OnErr result (frames.new ≡ frames.old) }
{
    frames.push(callee)?;
    let mut caller = frames.replace(1, blank(alloc));
    finish(&mut caller, count);
    drop(frames.replace(1, caller));
    Ok(())
}

// Pushes a value on the stack of a frame.
fn push_on(frame: &mut Frame, value: Value) -> Result<(), AllocError>
    ensures ok { OnOk result (frame.new ≡ pushed frame.old value) }
    ensures err { OnErr result (frame.new ≡ frame.old) }
{
    frame.stack.push(value)?;
    Ok(())
}

// The running frame ends, and leaves a value to the one below.
#[tactic(auto, using(pc_base::proofs::Gets::set_back))]
fn leave(alloc: Global, frames: &mut Stack<Frame>, value: Value) -> Result<(), AllocError>
    requires { 0 < length frames.old }
    ensures ok { OnOk result (frames.new ≡ ended (Some value) frames.old) }
    ensures err { OnErr result (frames.new ≡ frames.old) }
{
    if frames.len() == 1 {
        drop(frames.pop());
        return Ok(());
    }
    let mut below = frames.replace(1, blank(alloc));
    match push_on(&mut below, value) {
        Ok(()) => {
            drop(frames.pop());
            drop(frames.replace_top(below));
            Ok(())
        }
        Err(error) => {
            drop(frames.replace(1, below));
            Err(error)
        }
    }
}

/// The frames of an actor change. An `Err` leaves them as they were.
pub fn change_frames(
    alloc: Global,
    frames: &mut Stack<Frame>,
    change: Change,
) -> Result<(), AllocError>
    requires some { 0 < length frames.old }
    requires suits { IfSome (slice_get frames.old 0) (λ f. Suits change (length f.stack)) }
    ensures ok { OnOk result (frames.new ≡ frames_changed change frames.old) }
    ensures err { OnErr result (frames.new ≡ frames.old) }
{
    match change {
        Change::Gives { count, value } => give(frames, count, value),
        Change::Enters { count, frame } => enter(alloc, frames, count, frame),
        Change::Leaves(Some(value)) => leave(alloc, frames, value),
        Change::Leaves(None) => {
            drop(frames.pop());
            Ok(())
        }
    }
}
