//! Parts of a generated tree, each named as it is written.
ghost use Rattle.std.specs.Prelude.{◌≡◌, [], ◌∷◌, map, Some, IfOk};
ghost use Rattle.pc_tree.specs.View.{expr_view, suffix_view, item_view, arm_view, seq_view, method_view, entity_view};
ghost use Rattle.pc_tree.specs.Tree as t;
ghost use Rattle.pc_gen.specs.Program as spec;
ghost use Rattle.pc_tree.specs.Parts.{exprs_of};

use pc_base::{List, ShortBytes, Span};
use pc_caps::Cap;
use pc_tree::{
    Arm, Entity, EntityKind, Expr, Item, MethodDef, MethodWord, Name, Op, ParamDef, Seq, Suffix,
    TypeRef,
};
use std::alloc::{AllocError, Global};

/// The span of all parts of a generated tree, which is in no text.
pub const NOWHERE: Span = Span { start: 0, end: 0 };

/// A name.
pub fn named(alloc: Global, text: &[u8]) -> Result<Name, AllocError>
    ensures { IfOk result (λ name. name ≡ spec.placeless_name text.now) }
{
    Ok(Name {
        text: ShortBytes::from_slice(alloc, text)?,
        span: NOWHERE,
    })
}

/// `C` or `C k`.
pub fn type_of(alloc: Global, name: &[u8], cap: Option<Cap>) -> Result<TypeRef, AllocError>
    ensures { IfOk result (λ ty. ty ≡ spec.type_reference name.now cap) }
{
    Ok(TypeRef {
        name: named(alloc, name)?,
        cap,
        hat: false,
    })
}

/// `x`.
#[tactic(auto, using(pc_tree::proofs::Views::view_name))]
pub fn variable(alloc: Global, name: &[u8]) -> Result<Expr, AllocError>
    ensures { IfOk result (λ e. expr_view e ≡ spec.variable_expression name.now) }
{
    Ok(Expr::Name(named(alloc, name)?))
}

/// `C`.
#[tactic(auto, using(pc_tree::proofs::Views::view_type_name))]
pub fn entity(alloc: Global, name: &[u8]) -> Result<Expr, AllocError>
    ensures { IfOk result (λ e. expr_view e ≡ spec.type_expression name.now) }
{
    Ok(Expr::TypeName(named(alloc, name)?))
}

/// `5`.
#[tactic(auto, using(pc_tree::proofs::Views::view_number))]
pub fn number(value: u64) -> Expr
    ensures { expr_view result ≡ spec.number value }
{
    Expr::Number {
        value,
        span: NOWHERE,
    }
}

/// `consume x`.
#[tactic(auto, using(pc_tree::proofs::Views::view_consume))]
pub fn consumed(alloc: Global, name: &[u8]) -> Result<Expr, AllocError>
    ensures { IfOk result (λ e. expr_view e ≡ spec.consume_expression name.now) }
{
    Ok(Expr::Consume {
        name: named(alloc, name)?,
        span: NOWHERE,
    })
}

/// Terms with one operator between them.
#[tactic(auto, using(pc_tree::proofs::Views::view_infix))]
pub fn infix(op: Op, terms: List<Expr>) -> Expr
    ensures { expr_view result ≡ t.infix_ op (exprs_of (map expr_view terms)) spec.without_place }
{
    Expr::Infix {
        op,
        terms,
        span: NOWHERE,
    }
}

/// `a + b`.
pub fn operation(alloc: Global, op: Op, left: Expr, right: Expr) -> Result<Expr, AllocError>
    ensures { IfOk result (λ e. expr_view e ≡ spec.operator_expression op (expr_view left) (expr_view right)) }
{
    let terms = vec![in alloc; left, right]?;
    Ok(infix(op, List::from_vec(terms)))
}

/// `x = e`.
#[tactic(auto, using(pc_tree::proofs::Views::view_assign))]
pub fn assigned(alloc: Global, name: &[u8], value: Expr) -> Result<Expr, AllocError>
    ensures { IfOk result (λ e. expr_view e ≡ spec.assign_expression name.now (expr_view value)) }
{
    let right = Box::new(alloc, value)?;
    let left = Box::new(alloc, variable(alloc, name)?)?;
    Ok(Expr::Assign {
        left,
        right,
        span: NOWHERE,
    })
}

/// `.m`.
#[tactic(auto, using(pc_tree::proofs::Views::view_dot))]
pub fn dot(alloc: Global, name: &[u8]) -> Result<Suffix, AllocError>
    ensures { IfOk result (λ s. suffix_view s ≡ spec.dot name.now) }
{
    Ok(Suffix::Dot(named(alloc, name)?))
}

/// `(a, b)`.
#[tactic(auto, using(pc_tree::proofs::Views::view_args))]
pub fn arguments(args: List<Expr>) -> Suffix
    ensures { suffix_view result ≡ spec.arguments_suffix (map expr_view args) }
{
    Suffix::Args {
        args,
        span: NOWHERE,
    }
}

/// An expression followed by a chain of suffixes.
#[tactic(auto, using(pc_tree::proofs::Views::view_chain))]
pub fn chained(alloc: Global, head: Expr, suffixes: List<Suffix>) -> Result<Expr, AllocError>
    ensures { IfOk result (λ e. expr_view e ≡ spec.chained (expr_view head) (map suffix_view suffixes)) }
{
    Ok(Expr::Chain {
        head: Box::new(alloc, head)?,
        suffixes,
        span: NOWHERE,
    })
}

// `.m(a, b)`.
fn called(alloc: Global, method: &[u8], args: List<Expr>) -> Result<List<Suffix>, AllocError>
    ensures { IfOk result (λ ss. map suffix_view ss ≡ spec.dot method.now ∷ spec.arguments_suffix (map expr_view args) ∷ []) }
{
    let method = dot(alloc, method)?;
    let suffixes = vec![in alloc; method, arguments(args)]?;
    Ok(List::from_vec(suffixes))
}

/// `x.m(a, b)`.
pub fn call(alloc: Global, name: &[u8], method: &[u8], args: List<Expr>) -> Result<Expr, AllocError>
    ensures { IfOk result (λ e. expr_view e ≡ spec.call_expression name.now method.now (map expr_view args)) }
{
    let suffixes = called(alloc, method, args)?;
    let head = variable(alloc, name)?;
    chained(alloc, head, suffixes)
}

/// `C(a, b)`.
pub fn construct(alloc: Global, name: &[u8], args: List<Expr>) -> Result<Expr, AllocError>
    ensures { IfOk result (λ e. expr_view e ≡ spec.construct name.now (map expr_view args)) }
{
    let suffixes = one(alloc, arguments(args))?;
    let head = entity(alloc, name)?;
    chained(alloc, head, suffixes)
}

/// A list of one value.
pub fn one<T: Drop>(alloc: Global, item: T) -> Result<List<T>, AllocError>
    ensures { IfOk result (λ list. list ≡ item ∷ []) }
{
    let mut list = List::new(alloc);
    list.push(item)?;
    Ok(list)
}

/// A sequence.
#[tactic(auto, using(pc_tree::proofs::Views::view_seq))]
pub fn sequence(items: List<Item>) -> Seq
    ensures { seq_view result ≡ spec.sequence_of (map item_view items) }
{
    Seq {
        items,
        span: NOWHERE,
    }
}

/// A sequence of one expression.
#[tactic(auto, using(pc_tree::proofs::Views::view_plain))]
pub fn alone(alloc: Global, expression: Expr) -> Result<Seq, AllocError>
    ensures { IfOk result (λ seq. seq_view seq ≡ spec.alone (expr_view expression)) }
{
    let items = one(alloc, Item::Plain(expression))?;
    Ok(sequence(items))
}

/// `let x: T = e`, or `var` in place of `let`.
#[tactic(auto, using(pc_tree::proofs::Views::view_local))]
pub fn local(fixed: bool, typed: ParamDef, value: Expr) -> Item
    ensures { item_view result ≡ t.local fixed typed.name (Some typed.ty) (expr_view value) spec.without_place }
{
    Item::Local {
        fixed,
        name: typed.name,
        ty: Some(typed.ty),
        value,
        span: NOWHERE,
    }
}

// `c then a`.
#[tactic(auto, using(pc_tree::proofs::Views::view_arm))]
fn arm(cond: Seq, body: Seq) -> Arm
    ensures { arm_view result ≡ t.arm_of (seq_view cond) (seq_view body) spec.without_place }
{
    Arm {
        cond,
        body,
        span: NOWHERE,
    }
}

/// `if c then a else b end`.
pub fn choice(alloc: Global, cond: Seq, body: Seq, other: Seq) -> Result<Expr, AllocError>
    ensures { IfOk result (λ e. expr_view e ≡ spec.choice (seq_view cond) (seq_view body) (seq_view other)) }
{
    let arms = one(alloc, arm(cond, body))?;
    let other = Box::new(alloc, other)?;
    Ok(Expr::If {
        arms,
        other: Some(other),
        span: NOWHERE,
    })
}

/// `while c do a end`.
#[tactic(auto, using(pc_tree::proofs::Views::view_while))]
pub fn turns(alloc: Global, cond: Seq, body: Seq) -> Result<Expr, AllocError>
    ensures { IfOk result (λ e. expr_view e ≡ spec.turns (seq_view cond) (seq_view body)) }
{
    let cond = Box::new(alloc, cond)?;
    let body = Box::new(alloc, body)?;
    Ok(Expr::While {
        cond,
        body,
        span: NOWHERE,
    })
}

/// `recover k a end`.
#[tactic(auto, using(pc_tree::proofs::Views::view_recover))]
pub fn recovered(alloc: Global, cap: Cap, body: Seq) -> Result<Expr, AllocError>
    ensures { IfOk result (λ e. expr_view e ≡ spec.recover_expression cap (seq_view body)) }
{
    let body = Box::new(alloc, body)?;
    Ok(Expr::Recover {
        cap: Some(cap),
        body,
        span: NOWHERE,
    })
}

/// `x: C` or `x: C k`.
pub fn param(
    alloc: Global,
    name: &[u8],
    class: &[u8],
    cap: Option<Cap>,
) -> Result<ParamDef, AllocError>
    ensures { IfOk result (λ param. param ≡ spec.param_definition name.now (spec.type_reference class.now cap)) }
{
    let name = named(alloc, name)?;
    let ty = type_of(alloc, class, cap)?;
    Ok(ParamDef { name, ty })
}

/// A method with a body.
pub fn method(
    alloc: Global,
    word: MethodWord,
    cap: Option<Cap>,
    name: &[u8],
    params: List<ParamDef>,
    gives: Option<TypeRef>,
    body: Seq,
) -> Result<MethodDef, AllocError>
    ensures { IfOk result (λ m. method_view m ≡ spec.method_definition word cap name.now params gives (seq_view body)) }
{
    Ok(MethodDef {
        word,
        cap,
        name: named(alloc, name)?,
        params,
        result: gives,
        body: Some(body),
    })
}

/// `new create(x: T) => body`.
pub fn create(alloc: Global, params: List<ParamDef>, body: Seq) -> Result<MethodDef, AllocError>
    ensures { IfOk result (λ m. method_view m ≡ spec.create params (seq_view body)) }
{
    method(alloc, MethodWord::New, None, b"create", params, None, body)
}

/// An actor without fields, with one method.
pub fn actor(alloc: Global, name: &[u8], method: MethodDef) -> Result<Entity, AllocError>
    ensures { IfOk result (λ e. entity_view e ≡ spec.actor name.now (method_view method)) }
{
    let methods = one(alloc, method)?;
    let name = named(alloc, name)?;
    Ok(Entity {
        kind: EntityKind::Actor,
        cap: None,
        name,
        provides: List::new(alloc),
        fields: List::new(alloc),
        methods,
    })
}
