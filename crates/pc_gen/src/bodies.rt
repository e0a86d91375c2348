//! What a worker does with its cell, as items of its body.
ghost use Rattle.std.specs.Prelude.{◌≡◌, ◌++◌, [], ◌∷◌, map, true, Some, codes, IfOk, OnOk};
ghost use Rattle.pc_caps.specs.declared.capability.Cap.TheVariants as cap;
ghost use Rattle.pc_tree.specs.Tree as t;
ghost use Rattle.pc_tree.specs.View.{expr_view, item_view, suffix_view, seq_view};
ghost use Rattle.pc_tree.specs.declared.kinds.Op.TheVariants as op;
ghost use Rattle.pc_gen.specs.Program as spec;

use crate::parts::{
    alone, arguments, assigned, call, chained, choice, dot, entity, local, number, one, operation,
    param, recovered, sequence, turns, variable,
};
use crate::task::Task;
use pc_base::List;
use pc_caps::Cap;
use pc_tree::{Expr, Item, Op, ParamDef, Seq, Suffix};
use std::alloc::{AllocError, Global};

// `x.add(e)`
fn add(alloc: Global, name: &[u8], amount: Expr) -> Result<Expr, AllocError>
    ensures { IfOk result (λ e. expr_view e ≡ spec.add_expression name.now (expr_view amount)) }
{
    let args = one(alloc, amount)?;
    call(alloc, name, b"add", args)
}

// `x.value()`
fn value(alloc: Global, name: &[u8]) -> Result<Expr, AllocError>
    ensures { IfOk result (λ e. expr_view e ≡ spec.value_expression name.now) }
{
    call(alloc, name, b"value", List::new(alloc))
}

// `()`
fn no_arguments(alloc: Global) -> Suffix
    ensures { suffix_view result ≡ spec.arguments_suffix [] }
{
    arguments(List::new(alloc))
}

// `.value().string()`
fn shown(alloc: Global) -> Result<List<Suffix>, AllocError>
    ensures { IfOk result (λ ss. map suffix_view ss ≡ spec.dot (codes "value") ∷ spec.arguments_suffix [] ∷ spec.dot (codes "string") ∷ spec.arguments_suffix [] ∷ []) }
{
    let value = dot(alloc, b"value")?;
    let string = dot(alloc, b"string")?;
    let first = no_arguments(alloc);
    let second = no_arguments(alloc);
    let suffixes = vec![in alloc; value, first, string, second]?;
    Ok(List::from_vec(suffixes))
}

/// `out.print(x.value().string())`
pub fn tell(alloc: Global, name: &[u8]) -> Result<Expr, AllocError>
    ensures { IfOk result (λ e. expr_view e ≡ spec.tell name.now) }
{
    let suffixes = shown(alloc)?;
    let head = variable(alloc, name)?;
    let text = chained(alloc, head, suffixes)?;
    let args = one(alloc, text)?;
    call(alloc, b"out", b"print", args)
}

// `c.value() > k`
fn holds_more(alloc: Global, addend: u64) -> Result<Seq, AllocError>
    ensures { IfOk result (λ seq. seq_view seq ≡ spec.alone (spec.operator_expression op.Gt (spec.value_expression (codes "c")) (spec.number addend))) }
{
    let held = value(alloc, b"c")?;
    let more = operation(alloc, Op::Gt, held, number(addend))?;
    alone(alloc, more)
}

// `c.add(n)`, alone
fn adding(alloc: Global, addend: u64) -> Result<Seq, AllocError>
    ensures { IfOk result (λ seq. seq_view seq ≡ spec.alone (spec.add_expression (codes "c") (spec.number addend))) }
{
    let adds = add(alloc, b"c", number(addend))?;
    alone(alloc, adds)
}

// `if c.value() > k then c.add(1) else c.add(k) end`
fn compare(alloc: Global, addend: u64) -> Result<Expr, AllocError>
    ensures { IfOk result (λ e. expr_view e ≡ spec.compare addend) }
{
    let cond = holds_more(alloc, addend)?;
    let body = adding(alloc, 1)?;
    let other = adding(alloc, addend)?;
    choice(alloc, cond, body, other)
}

// `t + n`
fn turn_and(alloc: Global, addend: u64) -> Result<Expr, AllocError>
    ensures { IfOk result (λ e. expr_view e ≡ spec.turn_and addend) }
{
    let turn = variable(alloc, b"t")?;
    operation(alloc, Op::Add, turn, number(addend))
}

// `c.add(t + k); t = t + 1`
fn one_turn(alloc: Global, addend: u64) -> Result<List<Item>, AllocError>
    ensures { IfOk result (λ items. map item_view items ≡ t.plain (spec.add_expression (codes "c") (spec.turn_and addend)) ∷ t.plain (spec.assign_expression (codes "t") (spec.turn_and 1)) ∷ []) }
{
    let amount = turn_and(alloc, addend)?;
    let adds = add(alloc, b"c", amount)?;
    let mut items = one(alloc, Item::Plain(adds))?;
    let next = turn_and(alloc, 1)?;
    let counts = assigned(alloc, b"t", next)?;
    items.push(Item::Plain(counts))?;
    Ok(items)
}

// `while t < 3 do c.add(t + k); t = t + 1 end`
fn repeat(alloc: Global, addend: u64) -> Result<Expr, AllocError>
    ensures { IfOk result (λ e. expr_view e ≡ spec.repeat addend) }
{
    let turn = variable(alloc, b"t")?;
    let below = operation(alloc, Op::Lt, turn, number(3))?;
    let cond = alone(alloc, below)?;
    let items = one_turn(alloc, addend)?;
    turns(alloc, cond, sequence(items))
}

/// An expression after other items.
pub fn push_plain(items: &mut List<Item>, expression: Expr) -> Result<(), AllocError>
    ensures { OnOk result (map item_view items.new ≡ map item_view items.old ++ t.plain (expr_view expression) ∷ []) }
{
    items.push(Item::Plain(expression))
}

// `let x: T = e` after other items, or `var` in place of `let`
fn push_local(
    items: &mut List<Item>,
    fixed: bool,
    typed: ParamDef,
    value: Expr,
) -> Result<(), AllocError>
    ensures { OnOk result (map item_view items.new ≡ map item_view items.old ++ t.local fixed typed.name (Some typed.ty) (expr_view value) spec.without_place ∷ []) }
{
    items.push(local(fixed, typed, value))
}

// `e.add(v)`
fn add_held(alloc: Global) -> Result<Expr, AllocError>
    ensures { IfOk result (λ e. expr_view e ≡ spec.add_expression (codes "e") (spec.variable_expression (codes "v"))) }
{
    let amount = variable(alloc, b"v")?;
    add(alloc, b"e", amount)
}

// `let e: Cell ref = Cell; e.add(v)`, after other items
fn push_copy(alloc: Global, items: &mut List<Item>) -> Result<(), AllocError>
    ensures { OnOk result (map item_view items.new ≡ map item_view items.old ++ spec.local true (codes "e") (spec.type_reference (codes "Cell") (Some cap.Ref)) (spec.type_expression (codes "Cell")) ∷ t.plain (spec.add_expression (codes "e") (spec.variable_expression (codes "v"))) ∷ []) }
{
    let typed = param(alloc, b"e", b"Cell", Some(Cap::Ref))?;
    let made = entity(alloc, b"Cell")?;
    push_local(items, true, typed, made)?;
    let adds = add_held(alloc)?;
    push_plain(items, adds)
}

// `recover val let e: Cell ref = Cell; e.add(v); e end`
fn freeze(alloc: Global) -> Result<Expr, AllocError>
    ensures { IfOk result (λ e. expr_view e ≡ spec.freeze) }
{
    let mut items = List::new(alloc);
    push_copy(alloc, &mut items)?;
    let last = variable(alloc, b"e")?;
    push_plain(&mut items, last)?;
    recovered(alloc, Cap::Val, sequence(items))
}

// `var t: U64 = 0` and the loop
fn push_repeat(alloc: Global, items: &mut List<Item>, addend: u64) -> Result<(), AllocError>
    ensures { OnOk result (map item_view items.new ≡ map item_view items.old ++ spec.repeat_items addend) }
{
    let typed = param(alloc, b"t", b"U64", None)?;
    push_local(items, false, typed, number(0))?;
    let turns = repeat(alloc, addend)?;
    push_plain(items, turns)
}

// `let d: Cell val = recover .. end`, `out.print(d.value().string())`
fn push_frozen(alloc: Global, items: &mut List<Item>) -> Result<(), AllocError>
    ensures { OnOk result (map item_view items.new ≡ map item_view items.old ++ spec.frozen_items) }
{
    let typed = param(alloc, b"d", b"Cell", Some(Cap::Val))?;
    let frozen = freeze(alloc)?;
    push_local(items, true, typed, frozen)?;
    let told = tell(alloc, b"d")?;
    push_plain(items, told)
}

// `c.add(k)`, `let v: U64 = c.value()`, and a frozen copy of the cell's content
fn push_freeze(alloc: Global, items: &mut List<Item>, addend: u64) -> Result<(), AllocError>
    ensures { OnOk result (map item_view items.new ≡ map item_view items.old ++ spec.freeze_items addend) }
{
    let adds = add(alloc, b"c", number(addend))?;
    push_plain(items, adds)?;
    let typed = param(alloc, b"v", b"U64", None)?;
    let held = value(alloc, b"c")?;
    push_local(items, true, typed, held)?;
    push_frozen(alloc, items)
}

/// The items of a task with this number.
pub fn push_task(
    alloc: Global,
    items: &mut List<Item>,
    task: Task,
    addend: u64,
) -> Result<(), AllocError>
    ensures { OnOk result (map item_view items.new ≡ map item_view items.old ++ spec.task_items task addend) }
{
    match task {
        Task::Add => {
            let adds = add(alloc, b"c", number(addend))?;
            push_plain(items, adds)
        }
        Task::Compare => {
            let compares = compare(alloc, addend)?;
            push_plain(items, compares)
        }
        Task::Repeat => push_repeat(alloc, items, addend),
        Task::Freeze => push_freeze(alloc, items, addend),
    }
}
