//! What an actor's next step is, before it is made. The functions only read, and do not allocate.
ghost use Rattle.std.specs.Prelude.{◌≡◌, ◌+◌, ℕ, length, slice_get, List as Sequence};
ghost use Rattle.pc_semantics.specs.Ahead as spec;
ghost use Rattle.pc_semantics.specs.Ahead.{by_move, by_outcome};
ghost use Rattle.pc_heap.specs.Objects.{ObjectMap};
ghost use Rattle.pc_semantics.specs.Configurations as around;
ghost use Rattle.pc_semantics.specs.Configurations.{Around, Configuration};
ghost use Rattle.pc_semantics.specs.Calls as calls;
ghost use Rattle.pc_semantics.specs.Parts as parts;
ghost use Rattle.pc_semantics.specs.Parts.{begin_method};
ghost use Rattle.pc_semantics.specs.Step.{printed_text, take_first};
ghost use Rattle.pc_semantics.specs.declared.actors.Actor.{Actor};
ghost use Rattle.pc_semantics.specs.declared.frames.Frame.{Frame};
ghost use Rattle.pc_tasks.specs.Fielded.{Fielded};
ghost use Rattle.pc_tasks.specs.Inside.{amid, first_move, relieved, IsInside};
ghost use Rattle.pc_machine.specs.States.{configuration_of};

use crate::arguments::{arguments_below, arguments_on};
use crate::invocations::receiver_of;
use crate::lookups::entity_of;
use crate::state::State;
use crate::strings::is_string;
use pc_core::{Core, Method, MethodKind, Node, NodeKind};
use pc_heap::{Heap, Value};
use pc_semantics::{Ahead, Frame, Mailbox, Message, Task};
use pc_tasks::{ahead_inside, is_inside};

// A class's constructor with this number, with these arguments.
fn object(core: &Core, number: u32, arguments: &[Value]) -> Ahead
    ensures { (around : Around) (f : Frame) → result ≡ by_move (parts.make_of core.now around number arguments.now f (slice_get core.now.methods number)) }
{
    let Some(method) = core.method_at(number) else {
        return Ahead::Lacks;
    };
    if arguments.len() != method.params.len() {
        return Ahead::Lacks;
    }
    match method.body {
        Some(_) => Ahead::Task,
        None => Ahead::Lacks,
    }
}

// The task Make of a node.
fn make(core: &Core, frame: &Frame, node: &Node) -> Ahead
    ensures { (around : Around) → result ≡ by_move (calls.make_task core.now around (relieved frame.now) node.now.children node.now.kind) }
{
    let NodeKind::New(number) = &node.kind else {
        return Ahead::Lacks;
    };
    match arguments_on(&frame.stack, node.children.len()) {
        Some(arguments) => object(core, *number, arguments),
        None => Ahead::Lacks,
    }
}

// An actor's constructor with this number, with these arguments.
fn actor(core: &Core, number: u32, arguments: &[Value]) -> Ahead
    ensures { (around : Around) (f : Frame) → result ≡ by_move (parts.spawn_of core.now around number arguments.now f (slice_get core.now.methods number)) }
{
    let Some(method) = core.method_at(number) else {
        return Ahead::Lacks;
    };
    if arguments.len() == method.params.len() {
        Ahead::Spawn
    } else {
        Ahead::Lacks
    }
}

// The task Spawn of a node.
fn spawn(core: &Core, frame: &Frame, node: &Node) -> Ahead
    ensures { (around : Around) → result ≡ by_move (calls.spawn_task core.now around (relieved frame.now) node.now.children node.now.kind) }
{
    let NodeKind::Spawn(number) = &node.kind else {
        return Ahead::Lacks;
    };
    match arguments_on(&frame.stack, node.children.len()) {
        Some(arguments) => actor(core, *number, arguments),
        None => Ahead::Lacks,
    }
}

// The call of a function.
fn function(method: &Method, arguments: &[Value]) -> Ahead
    ensures { (number : ℕ) (this : Value) (f : Frame) → result
        ≡ by_move (calls.counted method.now arguments.now (parts.enter number method.now this arguments.now f method.now.body)) }
{
    if arguments.len() != method.params.len() {
        return Ahead::Lacks;
    }
    match method.body {
        Some(_) => Ahead::Task,
        None => Ahead::Lacks,
    }
}

// The message of a method, to the receiver.
fn message(actors: usize, method: &Method, this: &Value, arguments: &[Value]) -> Ahead
    ensures { (objects : ObjectMap) (i number : ℕ) (f : Frame) → result
        ≡ by_move (parts.send (amid objects i actors) number method.now arguments.now f this.now) }
{
    let Some(receiver) = receiver_of(this, actors) else {
        return Ahead::Lacks;
    };
    if arguments.len() == method.params.len() {
        Ahead::Send(receiver)
    } else {
        Ahead::Lacks
    }
}

// The call of a method of the receiver.
fn method_of(actors: usize, method: &Method, this: &Value, arguments: &[Value]) -> Ahead
    ensures { (objects : ObjectMap) (i number : ℕ) (f : Frame) → result
        ≡ by_move (calls.invoke_kind (amid objects i actors) number method.now this.now arguments.now f method.now.kind) }
{
    match method.kind {
        MethodKind::Fun => function(method, arguments),
        MethodKind::Be => message(actors, method, this, arguments),
        MethodKind::New => Ahead::Lacks,
        MethodKind::Spawn => Ahead::Lacks,
    }
}

// The call of a name that is not a method of the receiver.
fn string(core: &Core, name: u32, this: &Value, arguments: &[Value]) -> Ahead
    ensures { (f : Frame) → result ≡ by_move (calls.string_of core.now name this.now arguments.now f) }
{
    if !is_string(core, name, arguments) {
        return Ahead::Lacks;
    }
    match this {
        Value::Num(_) => Ahead::Task,
        Value::Truth(_) => Ahead::Task,
        Value::Text(_) => Ahead::Lacks,
        Value::Prim(_) => Ahead::Lacks,
        Value::At(_) => Ahead::Lacks,
    }
}

// The call of a name on a receiver.
fn call(
    core: &Core,
    heap: &Heap,
    actors: usize,
    name: u32,
    this: &Value,
    arguments: &[Value],
) -> Ahead
    ensures { (i : ℕ) (f : Frame) → result ≡ by_move (parts.invoke_on core.now (amid heap.now.objects i actors) name this.now arguments.now f
        (around.value_entity heap.now.objects this.now)) }
{
    let Some(entity) = entity_of(heap, this) else {
        return Ahead::Lacks;
    };
    let Some(number) = core.method(entity, name) else {
        return string(core, name, this, arguments);
    };
    match core.method_at(number) {
        Some(method) => method_of(actors, method, this, arguments),
        None => Ahead::Lacks,
    }
}

// The task Invoke of a node.
fn invoke(core: &Core, heap: &Heap, actors: usize, frame: &Frame, node: &Node) -> Ahead
    ensures { (i : ℕ) → result ≡ by_move (calls.invoke_task core.now (amid heap.now.objects i actors) (relieved frame.now) node.now.children node.now.kind) }
{
    let NodeKind::Call(name) = &node.kind else {
        return Ahead::Lacks;
    };
    let Some(this) = frame.stack.top() else {
        return Ahead::Lacks;
    };
    let count = node.children.len().max(1);
    match arguments_below(&frame.stack, count) {
        Some(arguments) => call(core, heap, actors, *name, this, arguments),
        None => Ahead::Lacks,
    }
}

// The end of a method.
fn end_of(frame: &Frame, method: &Method) -> Ahead
    ensures { result ≡ by_move (calls.leave (relieved frame.now) method.now.kind) }
{
    match method.kind {
        MethodKind::Fun => match frame.stack.top() {
            Some(_) => Ahead::Task,
            None => Ahead::Lacks,
        },
        MethodKind::New => match frame.slots.get(0) {
            Some(_) => Ahead::Task,
            None => Ahead::Lacks,
        },
        MethodKind::Be => Ahead::Task,
        MethodKind::Spawn => Ahead::Task,
    }
}

// The task Return of a frame.
fn end(core: &Core, frame: &Frame) -> Ahead
    ensures { result ≡ by_move (parts.return_task (relieved frame.now) (slice_get core.now.methods frame.now.method)) }
{
    match core.method_at(frame.method) {
        Some(method) => end_of(frame, method),
        None => Ahead::Lacks,
    }
}

// The first task of a frame, if it is not a task inside the frame.
fn first_call(core: &Core, heap: &Heap, actors: usize, frame: &Frame) -> Ahead
    requires { ¬ (IsInside (slice_get frame.now.tasks 0)) }
    ensures { (i : ℕ) → result ≡ by_move (first_move core.now (amid heap.now.objects i actors) frame.now (slice_get frame.now.tasks 0)) }
{
    let Some(task) = frame.tasks.top() else {
        return Ahead::Lacks;
    };
    match task {
        Task::Make(number) => match core.node_at(number) {
            Some(node) => make(core, frame, node),
            None => Ahead::Lacks,
        },
        Task::Spawn(number) => match core.node_at(number) {
            Some(node) => spawn(core, frame, node),
            None => Ahead::Lacks,
        },
        Task::Invoke(number) => match core.node_at(number) {
            Some(node) => invoke(core, heap, actors, frame, node),
            None => Ahead::Lacks,
        },
        Task::Return => end(core, frame),
        Task::Eval(_)
        | Task::Get(_)
        | Task::Put(_)
        | Task::Store(_)
        | Task::Apply(_)
        | Task::Test(_)
        | Task::Branch(_)
        | Task::Loop(_)
        | Task::Discard => unreachable!(),
    }
}

// The first task of a frame, if every object has the fields of its entity.
fn first_task(core: &Core, heap: &Heap, actors: usize, frame: &Frame) -> Ahead
    requires { Fielded core.now heap.now.objects }
    ensures { (i : ℕ) → result ≡ by_move (first_move core.now (amid heap.now.objects i actors) frame.now (slice_get frame.now.tasks 0)) }
{
    if is_inside(frame) {
        ahead_inside(core, heap, frame)
    } else {
        first_call(core, heap, actors, frame)
    }
}

// Actor 0 takes a message, and prints its text.
fn print(message: &Message) -> Ahead
    ensures { (c : Configuration) (a : Actor) → result ≡ by_outcome (printed_text c a message.now.arguments).0 }
{
    match message.arguments.as_slice() {
        [Value::Text(_)] => Ahead::Take,
        _ => Ahead::Lacks,
    }
}

// Another actor takes a message, and begins its method.
fn begin(core: &Core, message: &Message) -> Ahead
    ensures { (c : Configuration) (i : ℕ) (a : Actor) → result ≡ by_outcome (begin_method c i a message.now (slice_get core.now.methods message.now.method)).0 }
{
    let Some(method) = core.method_at(message.method) else {
        return Ahead::Lacks;
    };
    match method.body {
        Some(_) => Ahead::Take,
        None => Ahead::Lacks,
    }
}

// An idle actor takes its oldest message.
#[tactic(auto, using(crate::proofs::Foreseen::none_waits, crate::proofs::Foreseen::oldest_printed, crate::proofs::Foreseen::oldest_begun))]
fn oldest(core: &Core, actor: u32, mailbox: &Mailbox) -> Ahead
    ensures { (c : Configuration) → result ≡ by_outcome (take_first core.now c actor mailbox.now).0 }
{
    let Some(message) = mailbox.oldest() else {
        return Ahead::Skipped;
    };
    if actor == 0 {
        print(message)
    } else {
        begin(core, message)
    }
}

/// What the next step of an actor is, if every object has the fields of its entity.
#[tactic(auto, using(crate::proofs::Foreseen::none_foreseen, crate::proofs::Foreseen::task_foreseen, crate::proofs::Foreseen::idle_foreseen))]
pub fn ahead_of(core: &Core, state: &State, actor: u32) -> Ahead
    requires { Fielded core.now state.now.heap.objects }
    ensures { result ≡ spec.ahead_of core.now (configuration_of state.now) actor }
{
    let Some(found) = state.actors.get(actor as usize) else {
        return Ahead::Skipped;
    };
    match found.frames.top() {
        Some(frame) => first_task(core, &state.heap, state.actors.len(), frame),
        None => oldest(core, actor, &found.mailbox),
    }
}
