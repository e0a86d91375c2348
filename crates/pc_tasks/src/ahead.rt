//! What the first task of a frame is, before it is done, if it concerns the frame and the objects alone. The functions
//! only read, and do not allocate.
ghost use Rattle.std.specs.Prelude.{◌≡◌, ℕ, Bool, slice_get};
ghost use Rattle.pc_core.specs.declared.kinds.Connective.TheVariants as joins;
ghost use Rattle.pc_semantics.specs.Ahead.{by_move};
ghost use Rattle.pc_semantics.specs.Configurations.{pop, Goes};
ghost use Rattle.pc_semantics.specs.Evaluation as evaluation;
ghost use Rattle.pc_semantics.specs.Parts as parts;
ghost use Rattle.pc_semantics.specs.Calls as fields;
ghost use Rattle.pc_semantics.specs.Parts.{at_node};
ghost use Rattle.pc_semantics.specs.declared.frames.Frame.{Frame};
ghost use Rattle.pc_tasks.specs.Fielded.{Fielded};
ghost use Rattle.pc_tasks.specs.Inside.{IsInside, amid, first_move, relieved, seeing};

use crate::evaluation::evaluation_ahead;
use crate::operators::{is_too_long, of_numbers, of_truths};
use pc_core::{Connective, Core, Operation};
use pc_heap::{Heap, Text, Value};
use pc_semantics::{Ahead, Frame, Task};
use pc_tree::Op;

// The task Eval of this node.
fn evaluate(core: &Core, frame: &Frame, number: u32) -> Ahead
    ensures { result ≡ by_move (parts.evaluate_node (relieved frame.now) number (slice_get core.now.nodes number)) }
{
    match core.node_at(number) {
        Some(node) => evaluation_ahead(frame, node.children.as_slice(), &node.kind),
        None => Ahead::Lacks,
    }
}

// The field with this name of the object on top is read.
fn read(core: &Core, heap: &Heap, frame: &Frame, name: u32) -> Ahead
    ensures { result ≡ by_move (pop (relieved frame.now) (parts.get_from core.now (seeing heap.now.objects) name)) }
{
    let Some(Value::At(address)) = frame.stack.top() else {
        return Ahead::Lacks;
    };
    let Some(entity) = heap.class_of(*address) else {
        return Ahead::Lacks;
    };
    let Some(field) = core.field(entity, name) else {
        return Ahead::Lacks;
    };
    match heap.get(*address, field) {
        Some(_) => Ahead::Task,
        None => Ahead::Lacks,
    }
}

// The task Get of this node.
fn get(core: &Core, heap: &Heap, frame: &Frame, number: u32) -> Ahead
    ensures { result ≡ by_move (at_node (slice_get core.now.nodes number) (λ x. fields.get_task core.now (seeing heap.now.objects) (relieved frame.now) x.kind)) }
{
    let Some(node) = core.node_at(number) else {
        return Ahead::Lacks;
    };
    match node.kind.field_read() {
        Some(name) => read(core, heap, frame, name),
        None => Ahead::Lacks,
    }
}

// The field with this name of the object on top gets the value below it.
#[tactic(auto, using(crate::proofs::Written::written))]
fn write(core: &Core, heap: &Heap, frame: &Frame, name: u32) -> Ahead
    requires { Fielded core.now heap.now.objects }
    ensures { result ≡ by_move (pop (relieved frame.now) (λ o g. pop g (parts.put_into core.now (seeing heap.now.objects) name o))) }
{
    if frame.stack.len() < 2 {
        return Ahead::Lacks;
    }
    let Some(Value::At(address)) = frame.stack.top() else {
        return Ahead::Lacks;
    };
    let Some(entity) = heap.class_of(*address) else {
        return Ahead::Lacks;
    };
    match core.field(entity, name) {
        Some(_) => Ahead::Task,
        None => Ahead::Lacks,
    }
}

// The task Put of this node.
fn put(core: &Core, heap: &Heap, frame: &Frame, number: u32) -> Ahead
    requires { Fielded core.now heap.now.objects }
    ensures { result ≡ by_move (at_node (slice_get core.now.nodes number) (λ x. fields.put_task core.now (seeing heap.now.objects) (relieved frame.now) x.kind)) }
{
    let Some(node) = core.node_at(number) else {
        return Ahead::Lacks;
    };
    match node.kind.field_written() {
        Some(name) => write(core, heap, frame, name),
        None => Ahead::Lacks,
    }
}

// A value must be on top.
fn top(frame: &Frame) -> Ahead
    ensures stored { (slot : ℕ) → result ≡ by_move (pop (relieved frame.now) (fields.store slot)) }
    ensures dropped { result ≡ by_move (pop (relieved frame.now) (λ v g. Goes g)) }
{
    match frame.stack.top() {
        Some(_) => Ahead::Task,
        None => Ahead::Lacks,
    }
}

// The task Store of this node.
fn store(core: &Core, frame: &Frame, number: u32) -> Ahead
    ensures { result ≡ by_move (at_node (slice_get core.now.nodes number) (λ x. fields.store_task (relieved frame.now) x.kind)) }
{
    let Some(node) = core.node_at(number) else {
        return Ahead::Lacks;
    };
    match node.kind.stored_slot() {
        Some(_) => top(frame),
        None => Ahead::Lacks,
    }
}

// The value of an operator, if it has one.
fn given(value: Option<Value>) -> Ahead
    ensures { (f : Frame) → result ≡ by_move (parts.push_or_lack f value) }
{
    match value {
        Some(_) => Ahead::Task,
        None => Ahead::Lacks,
    }
}

// An operator on two texts.
fn of_texts(op: Op, left: &Text, right: &Text) -> Ahead
    ensures { (f : Frame) → result ≡ by_move (evaluation.of_texts f op left.now right.now) }
{
    match op {
        Op::Add => {
            if is_too_long(left, right) {
                Ahead::TooLong
            } else {
                Ahead::Task
            }
        }
        Op::Eq | Op::Ne => Ahead::Task,
        Op::Sub
        | Op::Mul
        | Op::Div
        | Op::Rem
        | Op::Lt
        | Op::Le
        | Op::Gt
        | Op::Ge
        | Op::And
        | Op::Or
        | Op::Xor
        | Op::Is
        | Op::Isnt => Ahead::Lacks,
    }
}

// A binary operator on two values.
fn binary(op: Op, left: &Value, right: &Value) -> Ahead
    ensures { (f : Frame) → result ≡ by_move (evaluation.binary f op left.now right.now) }
{
    match (left, right) {
        (Value::Num(left), Value::Num(right)) => given(of_numbers(op, *left, *right)),
        (Value::Truth(left), Value::Truth(right)) => given(of_truths(op, *left, *right)),
        (Value::Text(left), Value::Text(right)) => of_texts(op, left, right),
        (Value::Num(_) | Value::Truth(_) | Value::Text(_) | Value::Prim(_) | Value::At(_), _) =>
            Ahead::Lacks,
    }
}

// A binary operator: the right operand is on top.
fn apply_binary(frame: &Frame, op: Op) -> Ahead
    ensures { result ≡ by_move (pop (relieved frame.now) (λ w g. pop g (λ v h. evaluation.binary h op v w))) }
{
    let Some(right) = frame.stack.top() else {
        return Ahead::Lacks;
    };
    match frame.stack.peek(1) {
        Some(left) => binary(op, left, right),
        None => Ahead::Lacks,
    }
}

// `is` or `isnt`.
fn apply_same(frame: &Frame) -> Ahead
    ensures { (wanted : Bool) → result ≡ by_move (pop (relieved frame.now) (λ w g. pop g (λ v h. parts.compared h wanted v w))) }
{
    if frame.stack.len() < 2 {
        Ahead::Lacks
    } else {
        Ahead::Task
    }
}

// `not`.
fn apply_not(frame: &Frame) -> Ahead
    ensures { result ≡ by_move (pop (relieved frame.now) (λ v g. parts.negated g v)) }
{
    match frame.stack.top() {
        Some(Value::Truth(_)) => Ahead::Task,
        Some(Value::Num(_) | Value::Text(_) | Value::Prim(_) | Value::At(_)) | None => Ahead::Lacks,
    }
}

// The task Apply of this node.
fn apply(core: &Core, frame: &Frame, number: u32) -> Ahead
    ensures { result ≡ by_move (at_node (slice_get core.now.nodes number) (λ x. evaluation.apply_task (relieved frame.now) x.kind)) }
{
    let Some(node) = core.node_at(number) else {
        return Ahead::Lacks;
    };
    match node.kind.applied_operation() {
        Some(Operation::Binary(op)) => apply_binary(frame, op),
        Some(Operation::Same(_)) => apply_same(frame),
        Some(Operation::Not) => apply_not(frame),
        None => Ahead::Lacks,
    }
}

// The right side of an `and` or `or` is evaluated.
fn right_side(children: &[u32]) -> Ahead
    ensures { (f : Frame) → result ≡ by_move (evaluation.right_side f children.now) }
{
    match children {
        [_, _] => Ahead::Task,
        _ => Ahead::Lacks,
    }
}

// The left side of an `and`.
fn test_and(frame: &Frame, children: &[u32]) -> Ahead
    ensures { result ≡ by_move (pop (relieved frame.now) (evaluation.truth (evaluation.decided joins.And children.now))) }
{
    let Some(Value::Truth(truth)) = frame.stack.top() else {
        return Ahead::Lacks;
    };
    if *truth {
        right_side(children)
    } else {
        Ahead::Task
    }
}

// The left side of an `or`.
fn test_or(frame: &Frame, children: &[u32]) -> Ahead
    ensures { result ≡ by_move (pop (relieved frame.now) (evaluation.truth (evaluation.decided joins.Or children.now))) }
{
    let Some(Value::Truth(truth)) = frame.stack.top() else {
        return Ahead::Lacks;
    };
    if *truth {
        Ahead::Task
    } else {
        right_side(children)
    }
}

// The task Test of this node.
fn test(core: &Core, frame: &Frame, number: u32) -> Ahead
    ensures { result ≡ by_move (at_node (slice_get core.now.nodes number) (λ x. evaluation.test_task (relieved frame.now) x.children x.kind)) }
{
    let Some(node) = core.node_at(number) else {
        return Ahead::Lacks;
    };
    match node.kind.connective() {
        Some(Connective::And) => test_and(frame, node.children.as_slice()),
        Some(Connective::Or) => test_or(frame, node.children.as_slice()),
        None => Ahead::Lacks,
    }
}

// One of two branches is evaluated.
fn take_branch(frame: &Frame, children: &[u32]) -> Ahead
    ensures { result ≡ by_move (parts.branch_task (relieved frame.now) children.now) }
{
    let Some(Value::Truth(_)) = frame.stack.top() else {
        return Ahead::Lacks;
    };
    match children {
        [_, _, _] => Ahead::Task,
        _ => Ahead::Lacks,
    }
}

// The task Branch of this node.
fn branch(core: &Core, frame: &Frame, number: u32) -> Ahead
    ensures { result ≡ by_move (at_node (slice_get core.now.nodes number) (λ x. parts.branch_task (relieved frame.now) x.children)) }
{
    match core.node_at(number) {
        Some(node) => take_branch(frame, node.children.as_slice()),
        None => Ahead::Lacks,
    }
}

// A turn of a `while` with these children, or its end.
fn turn(frame: &Frame, children: &[u32]) -> Ahead
    ensures { (n : ℕ) → result ≡ by_move (parts.loop_task (relieved frame.now) n children.now) }
{
    let Some(Value::Truth(_)) = frame.stack.top() else {
        return Ahead::Lacks;
    };
    match children {
        [_, _] => Ahead::Task,
        _ => Ahead::Lacks,
    }
}

// The task Loop of this node.
fn go_round(core: &Core, frame: &Frame, number: u32) -> Ahead
    ensures { result ≡ by_move (at_node (slice_get core.now.nodes number) (λ x. parts.loop_task (relieved frame.now) number x.children)) }
{
    match core.node_at(number) {
        Some(node) => turn(frame, node.children.as_slice()),
        None => Ahead::Lacks,
    }
}

// What the first task of a frame is, for a task that only looks at the objects.
fn first_ahead(core: &Core, heap: &Heap, frame: &Frame) -> Ahead
    requires inside { IsInside (slice_get frame.now.tasks 0) }
    requires fielded { Fielded core.now heap.now.objects }
    ensures { result ≡ by_move (first_move core.now (seeing heap.now.objects) frame.now (slice_get frame.now.tasks 0)) }
{
    let Some(task) = frame.tasks.top() else {
        unreachable!()
    };
    match task {
        Task::Eval(n) => evaluate(core, frame, n),
        Task::Get(n) => get(core, heap, frame, n),
        Task::Put(n) => put(core, heap, frame, n),
        Task::Store(n) => store(core, frame, n),
        Task::Apply(n) => apply(core, frame, n),
        Task::Test(n) => test(core, frame, n),
        Task::Branch(n) => branch(core, frame, n),
        Task::Loop(n) => go_round(core, frame, n),
        Task::Discard => top(frame),
        Task::Make(_) => unreachable!(),
        Task::Spawn(_) => unreachable!(),
        Task::Invoke(_) => unreachable!(),
        Task::Return => unreachable!(),
    }
}

/// What the first task of a frame is, if it concerns the frame and the objects alone and every object has the fields of
/// its entity. It does not allocate.
#[tactic(auto, using(crate::proofs::Anyone::for_anyone))]
pub fn ahead_inside(core: &Core, heap: &Heap, frame: &Frame) -> Ahead
    requires inside { IsInside (slice_get frame.now.tasks 0) }
    requires fielded { Fielded core.now heap.now.objects }
    ensures { (i k : ℕ) → result ≡ by_move (first_move core.now (amid heap.now.objects i k) frame.now (slice_get frame.now.tasks 0)) }
{
    first_ahead(core, heap, frame)
}
