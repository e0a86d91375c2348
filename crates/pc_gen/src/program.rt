//! The generated program.
ghost use Rattle.std.specs.Prelude.{◌≡◌, ◌++◌, [], ◌∷◌, ◌<◌, ◌≤◌, ◌+◌, map, codes, IfOk, OnOk};
ghost use Rattle.pc_tree.specs.View.{expr_view, item_view, field_view, method_view, entity_view, file_view};
ghost use Rattle.pc_tree.specs.declared.kinds.Op.TheVariants as op;
ghost use Rattle.pc_draws.specs.Draws.{next, high};
ghost use Rattle.pc_gen.specs.Program as spec;

use crate::bodies::{push_plain, push_task, tell};
use crate::parts::{
    actor, alone, assigned, chained, construct, consumed, create, dot, entity, infix, local,
    method, named, number, one, param, sequence, type_of, variable,
};
use crate::task::{Task, task_of};
use pc_base::List;
use pc_caps::Cap;
use pc_draws::Draws;
use pc_tree::{
    Entity, EntityKind, Expr, FieldDef, File, Item, MethodDef, MethodWord, Op, ParamDef,
};
use std::alloc::{AllocError, Global};

// `var _n: U64 = 0`
fn count_field(alloc: Global) -> Result<FieldDef, AllocError>
    ensures { IfOk result (λ f. field_view f ≡ spec.count_field) }
{
    let name = named(alloc, b"_n")?;
    let ty = type_of(alloc, b"U64", None)?;
    Ok(FieldDef {
        fixed: false,
        name,
        ty,
        value: Some(number(0)),
    })
}

// `_n + k`
fn sum(alloc: Global) -> Result<Expr, AllocError>
    ensures { IfOk result
        (λ e. expr_view e ≡ spec.operator_expression op.Add (spec.variable_expression (codes "_n")) (spec.variable_expression (codes "k"))) }
{
    let left = variable(alloc, b"_n")?;
    let mut terms = one(alloc, left)?;
    let right = variable(alloc, b"k")?;
    terms.push(right)?;
    Ok(infix(Op::Add, terms))
}

// `fun ref add(k: U64) => _n = _n + k`
fn add_method(alloc: Global) -> Result<MethodDef, AllocError>
    ensures { IfOk result (λ m. method_view m ≡ spec.add_method) }
{
    let more = sum(alloc)?;
    let sets = assigned(alloc, b"_n", more)?;
    let body = alone(alloc, sets)?;
    let amount = param(alloc, b"k", b"U64", None)?;
    let params = one(alloc, amount)?;
    let cap = Some(Cap::Ref);
    method(alloc, MethodWord::Fun, cap, b"add", params, None, body)
}

// `fun value(): U64 => _n`
fn value_method(alloc: Global) -> Result<MethodDef, AllocError>
    ensures { IfOk result (λ m. method_view m ≡ spec.value_method) }
{
    let held = variable(alloc, b"_n")?;
    let body = alone(alloc, held)?;
    let ty = Some(type_of(alloc, b"U64", None)?);
    let params = List::new(alloc);
    method(alloc, MethodWord::Fun, None, b"value", params, ty, body)
}

// The methods of `Cell`.
fn cell_methods(alloc: Global) -> Result<List<MethodDef>, AllocError>
    ensures { IfOk result (λ ms. map method_view ms ≡ spec.add_method ∷ spec.value_method ∷ []) }
{
    let add = add_method(alloc)?;
    let mut methods = one(alloc, add)?;
    let value = value_method(alloc)?;
    methods.push(value)?;
    Ok(methods)
}

// The class `Cell`.
fn cell(alloc: Global) -> Result<Entity, AllocError>
    ensures { IfOk result (λ e. entity_view e ≡ spec.cell) }
{
    let count = count_field(alloc)?;
    let fields = one(alloc, count)?;
    let methods = cell_methods(alloc)?;
    let name = named(alloc, b"Cell")?;
    Ok(Entity {
        kind: EntityKind::Class,
        cap: None,
        name,
        provides: List::new(alloc),
        fields,
        methods,
    })
}

// `Work5`
fn worker_name(alloc: Global, index: u32) -> Result<List<u8>, AllocError>
    ensures { IfOk result (λ name. name ≡ spec.worker_name index) }
{
    let digits = format!(in alloc; "{index}")?;
    let mut name = Vec::from_slice(alloc, b"Work")?;
    name.extend_from_slice(digits.as_bytes())?;
    Ok(List::from_vec(name))
}

// `let c: Cell iso = consume cell`
fn take_cell(alloc: Global) -> Result<Item, AllocError>
    ensures { IfOk result (λ item. item_view item ≡ spec.take_cell) }
{
    let typed = param(alloc, b"c", b"Cell", Some(Cap::Iso))?;
    let given = consumed(alloc, b"cell")?;
    Ok(local(true, typed, given))
}

// `out: OutStream, cell: Cell iso`
fn worker_params(alloc: Global) -> Result<List<ParamDef>, AllocError>
    ensures { IfOk result (λ params. params ≡ spec.worker_params) }
{
    let out = param(alloc, b"out", b"OutStream", None)?;
    let cell = param(alloc, b"cell", b"Cell", Some(Cap::Iso))?;
    let params = vec![in alloc; out, cell]?;
    Ok(List::from_vec(params))
}

// `out, consume c`
fn handed(alloc: Global) -> Result<List<Expr>, AllocError>
    ensures { IfOk result (λ es. map expr_view es ≡ spec.variable_expression (codes "out") ∷ spec.consume_expression (codes "c") ∷ []) }
{
    let out = variable(alloc, b"out")?;
    let mut args = one(alloc, out)?;
    let cell = consumed(alloc, b"c")?;
    args.push(cell)?;
    Ok(args)
}

// What a worker does last: the last worker prints the cell's content, each other passes the cell on.
fn hand_on(alloc: Global, size: u32, index: u32) -> Result<Expr, AllocError>
    requires { index < size }
    ensures { IfOk result (λ e. expr_view e ≡ spec.hand_on size index) }
{
    if index + 1 == size {
        return tell(alloc, b"c");
    }
    let name = worker_name(alloc, index + 1)?;
    let args = handed(alloc)?;
    construct(alloc, name.as_slice(), args)
}

// What a worker does.
fn work_items(
    alloc: Global,
    size: u32,
    index: u32,
    task: Task,
    addend: u64,
) -> Result<List<Item>, AllocError>
    requires { index < size }
    ensures { IfOk result (λ items. map item_view items ≡ spec.work_items size index task addend) }
{
    let first = take_cell(alloc)?;
    let mut items = one(alloc, first)?;
    push_task(alloc, &mut items, task, addend)?;
    let last = hand_on(alloc, size, index)?;
    push_plain(&mut items, last)?;
    Ok(items)
}

// The constructor of the worker with this number.
fn work_create(
    alloc: Global,
    size: u32,
    index: u32,
    task: Task,
    addend: u64,
) -> Result<MethodDef, AllocError>
    requires { index < size }
    ensures { IfOk result (λ m. method_view m ≡ spec.create spec.worker_params (spec.sequence_of (spec.work_items size index task addend))) }
{
    let items = work_items(alloc, size, index, task, addend)?;
    let params = worker_params(alloc)?;
    create(alloc, params, sequence(items))
}

// The worker with this number.
fn work(alloc: Global, size: u32, index: u32, task: Task, addend: u64) -> Result<Entity, AllocError>
    requires { index < size }
    ensures { IfOk result (λ e. entity_view e ≡ spec.work size index task addend) }
{
    let name = worker_name(alloc, index)?;
    let creates = work_create(alloc, size, index, task, addend)?;
    actor(alloc, name.as_slice(), creates)
}

// The worker with this number, from the next two draws.
fn next_worker(
    alloc: Global,
    draws: &mut Draws,
    size: u32,
    index: u32,
) -> Result<Entity, AllocError>
    requires { index < size }
    ensures state { draws.new.state ≡ next (next draws.old.state) }
    ensures worker { IfOk result (λ e. entity_view e ≡ spec.work size index (spec.task_of (high (next draws.old.state) 4)) (high (next (next draws.old.state)) 1000)) }
{
    let task = task_of(draws.draw(4));
    let k = u64::from(draws.draw(1000));
    work(alloc, size, index, task, k)
}

// The workers, in order.
fn push_workers(
    alloc: Global,
    entities: &mut List<Entity>,
    seed: u64,
    size: u32,
) -> Result<(), AllocError>
    ensures { OnOk result (map entity_view entities.new ≡ map entity_view entities.old ++ spec.workers seed size) }
{
    let mut draws = Draws::new(seed);
    for i in 0..size {
        let worker = next_worker(alloc, &mut draws, size, i)?;
        entities.push(worker)?;
    }
    Ok(())
}

// `env.out`
fn stream(alloc: Global) -> Result<Expr, AllocError>
    ensures { IfOk result (λ e. expr_view e ≡ spec.chained (spec.variable_expression (codes "env")) (spec.dot (codes "out") ∷ [])) }
{
    let out = dot(alloc, b"out")?;
    let suffixes = one(alloc, out)?;
    let env = variable(alloc, b"env")?;
    chained(alloc, env, suffixes)
}

// `Work0(env.out, Cell)`
fn begins(alloc: Global) -> Result<Expr, AllocError>
    ensures { IfOk result (λ e. expr_view e ≡ spec.construct (codes "Work0") (spec.chained (spec.variable_expression (codes "env")) (spec.dot (codes "out") ∷ []) ∷ spec.type_expression (codes "Cell") ∷ [])) }
{
    let out = stream(alloc)?;
    let mut args = one(alloc, out)?;
    let cell = entity(alloc, b"Cell")?;
    args.push(cell)?;
    construct(alloc, b"Work0", args)
}

// The actor `Main`.
fn main_actor(alloc: Global) -> Result<Entity, AllocError>
    ensures { IfOk result (λ e. entity_view e ≡ spec.main) }
{
    let first = begins(alloc)?;
    let body = alone(alloc, first)?;
    let env = param(alloc, b"env", b"Env", None)?;
    let params = one(alloc, env)?;
    let creates = create(alloc, params, body)?;
    actor(alloc, b"Main", creates)
}

/// The program of a seed and a size.
pub fn make(alloc: Global, seed: u64, size: u32) -> Result<File, AllocError>
    requires some { 1 ≤ size }
    requires few { size ≤ 900 }
    ensures { IfOk result (λ file. file_view file ≡ spec.program seed size) }
{
    let mut entities = one(alloc, cell(alloc)?)?;
    push_workers(alloc, &mut entities, seed, size)?;
    let main = main_actor(alloc)?;
    entities.push(main)?;
    Ok(File { entities })
}
