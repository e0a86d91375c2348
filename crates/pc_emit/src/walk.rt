//! The nodes of expressions and sequences, in the order of evaluation.
ghost use Rattle.std.specs.Prelude.{◌≡◌, ◌+◌, ◌≤◌, OnOk, length, take, drop, map, option_map, true, false, Some, List as Sequence};
ghost use Rattle.pc_tree.specs.View.{expr_view, item_view, suffix_view, seq_view, items_view, exprs_view, arms_view, other_view};
ghost use Rattle.pc_body_spec.specs.Bodies as spec;
ghost use Rattle.pc_body_spec.specs.Bodies.{Rose, scope_after};
ghost use Rattle.pc_body_spec.specs.Fold.{put, puts};
ghost use Rattle.pc_resolve.specs.Meanings.{meaning_view};
ghost use Rattle.pc_emit.specs.Giving.{GivesNodes};
ghost use Rattle.pc_emit.specs.Closing.{alone_of, arm_closes, begun, begun_by, is_block, is_chain, link_closes, link_of, first_of, is_missing as misses, only, rest_of, taken as count_of, target_meaning, OpensInnerPart, OpensChain, OpensOne, ReadsAtom};

use crate::chains::{
    Atom, Beginning, First, begin, behind, count_taken, cut, is_missing, read_atom, split_field,
    target_of,
};
use crate::name_nodes::{consume, read_name, read_text, read_type, write_name};
use crate::nodes::{double, end_word, gap, leaf, operation, several, single};
use crate::setting::Setting;
use crate::stop::EmitStop;
use crate::tops::Tops;
use crate::waiting::{
    Link, OpenArm, OpenChain, call_this, close_arms, close_links, close_sequence, close_write,
};
use pc_base::{List, ShortBytes, Span};
use pc_core::{Node, NodeKind};
use pc_resolve::{Meaning, Visible};
use pc_tree::{Arm, Expr, Item, NONE_ENTITY, Op, Seq, Suffix, join, span_of};

/// An expression.
#[cycle(walk)]
pub(crate) fn expr(
    setting: &Setting,
    scope: &mut List<Visible>,
    nodes: &mut List<Node>,
    expression: &Expr,
) -> Result<u32, EmitStop>
    ensures gives { GivesNodes result nodes.new (put setting.now.number (spec.expr_of setting.now.context.now scope.old setting.now.depth (expr_view expression.now)) nodes.old) }
    ensures scope { OnOk result (scope.new ≡ scope.old) }
{
    match expression {
        Expr::Number { value, span } => leaf(setting, nodes, NodeKind::Number(*value), *span),
        Expr::Truth { value, span } => leaf(setting, nodes, NodeKind::Truth(*value), *span),
        Expr::Text { bytes, span } => read_text(setting, nodes, bytes, *span),
        Expr::Name(name) => read_name(setting, scope.as_slice(), nodes, name),
        Expr::TypeName(name) => read_type(setting, nodes, name),
        Expr::This(span) => leaf(setting, nodes, NodeKind::This, *span),
        Expr::Consume { name, span } => consume(setting, scope.as_slice(), nodes, name, *span),
        Expr::Not { inner, span } => {
            let operand = expr(setting, scope, nodes, inner)?;
            single(setting, nodes, NodeKind::Not, *span, operand)
        }
        Expr::Infix { op, terms, span } => {
            infix(setting, scope, nodes, *op, *span, terms.as_slice())
        }
        Expr::Chain { .. } => chain(setting, scope, nodes, expression),
        Expr::Group { .. } | Expr::If { .. } | Expr::While { .. } | Expr::Recover { .. } => {
            block(setting, scope, nodes, expression)
        }
        Expr::Assign { left, right, span } => {
            let target = target_of(setting.context, scope.as_slice(), left);
            if is_missing(target) {
                return gap(setting, nodes, *span);
            }
            let value = expr(setting, scope, nodes, right)?;
            store(setting, scope, nodes, *span, left, target, value)
        }
    }
}

/// An expression with sequences in it: parentheses, an `if`, a `while` or a `recover`.
#[cycle(walk)]
fn block(
    setting: &Setting,
    scope: &mut List<Visible>,
    nodes: &mut List<Node>,
    expression: &Expr,
) -> Result<u32, EmitStop>
    ensures gives { GivesNodes result nodes.new (put setting.now.number (only is_block setting.now.context.now scope.old setting.now.depth (expr_view expression.now)) nodes.old) }
    ensures scope { OnOk result (scope.new ≡ scope.old) }
{
    match expression {
        Expr::Group { body, span } => sequence(setting, scope, nodes, *span, body),
        Expr::If { arms, other, span } => {
            let waiting = open_arms(setting, scope, nodes, *span, arms.as_slice())?;
            let last = otherwise(setting, scope, nodes, *span, other)?;
            close_arms(setting, nodes, waiting, last)
        }
        Expr::While { cond, body, span } => {
            let test = whole(setting, scope, nodes, cond)?;
            let turn = whole(setting, scope, nodes, body)?;
            double(setting, nodes, NodeKind::While, *span, test, turn)
        }
        Expr::Recover { cap, body, span } => {
            let inner = whole(&setting.deeper(), scope, nodes, body)?;
            single(setting, nodes, NodeKind::Recover(*cap), *span, inner)
        }
        Expr::Number { .. }
        | Expr::Truth { .. }
        | Expr::Text { .. }
        | Expr::Name(_)
        | Expr::TypeName(_)
        | Expr::This(_)
        | Expr::Consume { .. }
        | Expr::Not { .. }
        | Expr::Infix { .. }
        | Expr::Chain { .. }
        | Expr::Assign { .. } => gap(setting, nodes, span_of(expression)),
    }
}

/// A chain of suffixes.
#[cycle(walk)]
fn chain(
    setting: &Setting,
    scope: &mut List<Visible>,
    nodes: &mut List<Node>,
    expression: &Expr,
) -> Result<u32, EmitStop>
    ensures gives { GivesNodes result nodes.new (put setting.now.number (only is_chain setting.now.context.now scope.old setting.now.depth (expr_view expression.now)) nodes.old) }
    ensures scope { OnOk result (scope.new ≡ scope.old) }
{
    let Expr::Chain {
        head,
        suffixes,
        span,
    } = expression
    else {
        return gap(setting, nodes, span_of(expression));
    };
    let head: &Expr = head;
    let suffixes = suffixes.as_slice();
    let (beginning, atom) = begin(setting.context, scope.as_slice(), head, suffixes);
    let taken = count_taken(&beginning);
    let count = behind(suffixes, taken).len();
    let opened = open_chain(setting, scope, nodes, *span, suffixes, beginning, count)?;
    let origin = chain_origin(setting, scope, nodes, opened.origin, atom, head)?;
    close_links(setting, nodes, opened.links, origin)
}

/// The target of a write, after its value. A bare name must have this meaning, and be defined.
#[cycle(walk)]
fn store(
    setting: &Setting,
    scope: &mut List<Visible>,
    nodes: &mut List<Node>,
    span: Span,
    left: &Expr,
    target: Option<Meaning>,
    value: u32,
) -> Result<u32, EmitStop>
    ensures gives { (v : Rose) (before : Sequence Node) → option_map meaning_view target ≡ target_meaning setting.now.context.now scope.old (expr_view left.now) → misses setting.now.context.now scope.old (expr_view left.now) ≡ false → put setting.now.number v before ≡ Some (value, nodes.old) → GivesNodes result nodes.new (put setting.now.number (spec.assign_of setting.now.context.now scope.old setting.now.depth span v (spec.expr_of setting.now.context.now scope.old setting.now.depth (expr_view left.now)) (expr_view left.now)) before) }
    ensures scope { OnOk result (scope.new ≡ scope.old) }
{
    let Expr::Chain {
        head,
        suffixes,
        span: reach,
    } = left
    else {
        return store_alone(setting, scope, nodes, span, left, target, value);
    };
    let head: &Expr = head;
    let suffixes = suffixes.as_slice();
    let (beginning, atom) = begin(setting.context, scope.as_slice(), head, suffixes);
    let taken = count_taken(&beginning);
    let written = behind(suffixes, taken);
    let (field, count) = split_field(setting.context, written);
    let opened = open_chain(setting, scope, nodes, *reach, suffixes, beginning, count)?;
    let origin = chain_origin(setting, scope, nodes, opened.origin, atom, head)?;
    close_write(setting, nodes, span, field, opened.links, origin, value)
}

/// The target of a write, after its value, if it is not a chain: only a bare name takes the value.
#[cycle(walk)]
fn store_alone(
    setting: &Setting,
    scope: &mut List<Visible>,
    nodes: &mut List<Node>,
    span: Span,
    left: &Expr,
    target: Option<Meaning>,
    value: u32,
) -> Result<u32, EmitStop>
    ensures gives { (v : Rose) (before : Sequence Node) → option_map meaning_view target ≡ target_meaning setting.now.context.now scope.old (expr_view left.now) → misses setting.now.context.now scope.old (expr_view left.now) ≡ false → put setting.now.number v before ≡ Some (value, nodes.old) → GivesNodes result nodes.new (put setting.now.number (alone_of setting.now.context.now scope.old setting.now.depth span v (spec.expr_of setting.now.context.now scope.old setting.now.depth (expr_view left.now)) (expr_view left.now)) before) }
    ensures scope { OnOk result (scope.new ≡ scope.old) }
{
    match left {
        Expr::Name(name) => write_name(setting, nodes, span, name, target, value),
        Expr::Number { .. }
        | Expr::Truth { .. }
        | Expr::Text { .. }
        | Expr::TypeName(_)
        | Expr::This(_)
        | Expr::Consume { .. }
        | Expr::Not { .. }
        | Expr::Infix { .. }
        | Expr::Chain { .. }
        | Expr::Group { .. }
        | Expr::If { .. }
        | Expr::While { .. }
        | Expr::Recover { .. }
        | Expr::Assign { .. } => {
            let last = expr(setting, scope, nodes, left)?;
            double(setting, nodes, NodeKind::Seq, span, value, last)
        }
    }
}

/// The arguments of the `count` suffixes after the start of a chain, the last one's first, and then those of the start.
#[cycle(walk)]
fn open_chain(
    setting: &Setting,
    scope: &mut List<Visible>,
    nodes: &mut List<Node>,
    span: Span,
    suffixes: &[Suffix],
    beginning: Beginning,
    count: usize,
) -> Result<OpenChain, EmitStop>
    requires within { count_of beginning + count ≤ length suffixes.now }
    ensures gives { (atom : Rose) → OpensChain result nodes.new (link_closes setting.now.number setting.now.depth) (put setting.now.number atom) (put setting.now.number (rest_of setting.now.context.now scope.old setting.now.depth span (begun setting.now.context.now scope.old setting.now.depth span beginning (map suffix_view suffixes.now) atom) (map suffix_view (take count (drop (count_of beginning) suffixes.now)))) nodes.old) }
    ensures scope { OnOk result (scope.new ≡ scope.old) }
{
    let taken = count_taken(&beginning);
    let links = links(setting, scope, nodes, span, suffixes, taken, count)?;
    match beginning {
        Beginning::Value => Ok(OpenChain {
            links,
            origin: None,
        }),
        Beginning::With(first, at) => {
            let origin = first_args(setting, scope, nodes, span, first, &suffixes[at])?;
            Ok(OpenChain {
                links,
                origin: Some(origin),
            })
        }
    }
}

/// The beginning of a chain: it has this number, or it is the chain's atom, of which this is known.
#[cycle(walk)]
fn chain_origin(
    setting: &Setting,
    scope: &mut List<Visible>,
    nodes: &mut List<Node>,
    origin: Option<u32>,
    atom: Atom,
    head: &Expr,
) -> Result<u32, EmitStop>
    ensures gives { ReadsAtom setting.now.context.now scope.old (expr_view head.now) atom → GivesNodes result nodes.new (begun_by origin (put setting.now.number (spec.expr_of setting.now.context.now scope.old setting.now.depth (expr_view head.now))) nodes.old) }
    ensures scope { OnOk result (scope.new ≡ scope.old) }
{
    match origin {
        Some(number) => Ok(number),
        None => match atom {
            Atom::Reads(reading) => read_atom(setting, nodes, reading, span_of(head)),
            Atom::Walked => expr(setting, scope, nodes, head),
        },
    }
}

/// What the first arguments of a chain make with its atom.
#[cycle(walk)]
fn first_args(
    setting: &Setting,
    scope: &mut List<Visible>,
    nodes: &mut List<Node>,
    span: Span,
    first: First,
    suffix: &Suffix,
) -> Result<u32, EmitStop>
    ensures gives { GivesNodes result nodes.new (put setting.now.number (first_of setting.now.context.now scope.old setting.now.depth span first (suffix_view suffix.now)) nodes.old) }
    ensures scope { OnOk result (scope.new ≡ scope.old) }
{
    match suffix {
        Suffix::Dot(name) => gap(setting, nodes, join(span, name.span)),
        Suffix::Args { args, span: end } => match first {
            First::Made(kind) => {
                let children = exprs(setting, scope, nodes, args.as_slice())?;
                several(setting, nodes, kind, join(span, *end), children)
            }
            First::OnThis(text, place) => {
                let children = exprs(setting, scope, nodes, args.as_slice())?;
                call_this(setting, nodes, join(span, *end), text, place, children)
            }
            First::Missing => gap(setting, nodes, join(span, *end)),
        },
    }
}

/// The operands and operators of a chain, nested to the left.
#[cycle(walk)]
fn infix(
    setting: &Setting,
    scope: &mut List<Visible>,
    nodes: &mut List<Node>,
    op: Op,
    span: Span,
    terms: &[Expr],
) -> Result<u32, EmitStop>
    ensures gives { GivesNodes result nodes.new (put setting.now.number (spec.infix_of setting.now.context.now scope.old setting.now.depth op span (exprs_view terms.now)) nodes.old) }
    ensures scope { OnOk result (scope.new ≡ scope.old) }
{
    let Some(first) = terms.first() else {
        return leaf(setting, nodes, NodeKind::Prim(NONE_ENTITY), span);
    };
    let mut left = expr(setting, scope, nodes, first)?;
    for i in 1..terms.len() {
        let x = &terms[i];
        let right = expr(setting, scope, nodes, x)?;
        let reach = join(span, span_of(x));
        let kind = operation(op);
        left = double(setting, nodes, kind, reach, left, right)?;
    }
    Ok(left)
}

/// The conditions and bodies of an `if`; their nodes are pending on the `else`.
#[cycle(walk)]
fn open_arms(
    setting: &Setting,
    scope: &mut List<Visible>,
    nodes: &mut List<Node>,
    span: Span,
    arms: &[Arm],
) -> Result<List<OpenArm>, EmitStop>
    ensures gives { (last : Rose) → OpensInnerPart result nodes.new (arm_closes setting.now.number setting.now.depth) (put setting.now.number last) (put setting.now.number (spec.rose_of_arms setting.now.context.now scope.old setting.now.depth span true (arms_view arms.now) last) nodes.old) }
    ensures scope { OnOk result (scope.new ≡ scope.old) }
{
    let mut waiting = List::new(setting.alloc);
    let mut first = true;
    for a in arms {
        let cond = whole(setting, scope, nodes, &a.cond)?;
        let body = whole(setting, scope, nodes, &a.body)?;
        let place = arm_place(first, span, a.span);
        waiting.push(OpenArm {
            cond,
            body,
            first,
            span: place,
        })?;
        first = false;
    }
    Ok(waiting)
}

// The span of an arm of this `if`.
fn arm_place(first: bool, whole: Span, arm: Span) -> Span
    ensures { result ≡ spec.arm_place first whole arm }
{
    if first { whole } else { join(arm, whole) }
}

/// The `else` branch, if it is written, or the value None.
#[cycle(walk)]
fn otherwise(
    setting: &Setting,
    scope: &mut List<Visible>,
    nodes: &mut List<Node>,
    span: Span,
    other: &Option<Box<Seq>>,
) -> Result<u32, EmitStop>
    ensures gives { GivesNodes result nodes.new (put setting.now.number (spec.other_of setting.now.context.now scope.old setting.now.depth span (other_view other.now)) nodes.old) }
    ensures scope { OnOk result (scope.new ≡ scope.old) }
{
    match other {
        Some(body) => whole(setting, scope, nodes, body),
        None => {
            let end = end_word(span);
            let none = leaf(setting, nodes, NodeKind::Prim(NONE_ENTITY), end)?;
            single(setting, nodes, NodeKind::Seq, end, none)
        }
    }
}

/// The arguments of the first `count` suffixes, the last one's first, and the nodes pending on what comes before them.
#[cycle(walk)]
fn links(
    setting: &Setting,
    scope: &mut List<Visible>,
    nodes: &mut List<Node>,
    span: Span,
    suffixes: &[Suffix],
    first: usize,
    count: usize,
) -> Result<List<Link>, EmitStop>
    requires within { first + count ≤ length suffixes.now }
    ensures gives { (origin : Rose) → OpensInnerPart result nodes.new (link_closes setting.now.number setting.now.depth) (put setting.now.number origin) (put setting.now.number (rest_of setting.now.context.now scope.old setting.now.depth span origin (map suffix_view (take count (drop first suffixes.now)))) nodes.old) }
    ensures scope { OnOk result (scope.new ≡ scope.old) }
{
    let rest = behind(suffixes, first);
    let mut links = List::new(setting.alloc);
    let mut left = count;
    'back: while left > 0 {
        let (text, before) = cut(setting.context, rest, left);
        let x = &suffixes[first + left - 1];
        let last = link(setting, scope, nodes, span, x, text)?;
        links.push(last)?;
        left = before;
    }
    Ok(links)
}

/// The arguments of a suffix that uses this text, and the node pending on what comes before it.
#[cycle(walk)]
#[tactic(auto, unfolding(crate::specs::Closing::link_closes))]
fn link(
    setting: &Setting,
    scope: &mut List<Visible>,
    nodes: &mut List<Node>,
    span: Span,
    suffix: &Suffix,
    text: u32,
) -> Result<Link, EmitStop>
    ensures gives { (origin : Rose) → OpensOne result nodes.new (link_closes setting.now.number setting.now.depth) (put setting.now.number origin) (put setting.now.number (link_of setting.now.context.now scope.old setting.now.depth span text (suffix_view suffix.now) origin) nodes.old) }
    ensures scope { OnOk result (scope.new ≡ scope.old) }
{
    match suffix {
        Suffix::Dot(name) => Ok(Link {
            kind: NodeKind::Field(text),
            span: join(span, name.span),
            args: Tops::new(setting.alloc),
        }),
        Suffix::Args { args, span: end } => {
            let tops = exprs(setting, scope, nodes, args.as_slice())?;
            Ok(Link {
                kind: NodeKind::Call(text),
                span: join(span, *end),
                args: tops,
            })
        }
    }
}

/// Expressions, one after the other.
#[cycle(walk)]
fn exprs(
    setting: &Setting,
    scope: &mut List<Visible>,
    nodes: &mut List<Node>,
    xs: &[Expr],
) -> Result<Tops, EmitStop>
    ensures gives { GivesNodes result nodes.new (puts setting.now.number (spec.roses_of_exprs setting.now.context.now scope.old setting.now.depth (exprs_view xs.now)) nodes.old) }
    ensures scope { OnOk result (scope.new ≡ scope.old) }
{
    let mut tops = Tops::new(setting.alloc);
    for x in xs {
        let top = expr(setting, scope, nodes, x)?;
        tops.push(top)?;
    }
    Ok(tops)
}

/// A sequence, with its own span.
#[cycle(walk)]
fn whole(
    setting: &Setting,
    scope: &mut List<Visible>,
    nodes: &mut List<Node>,
    seq: &Seq,
) -> Result<u32, EmitStop>
    ensures gives { GivesNodes result nodes.new (put setting.now.number (spec.whole_of setting.now.context.now scope.old setting.now.depth (seq_view seq.now)) nodes.old) }
    ensures scope { OnOk result (scope.new ≡ scope.old) }
{
    sequence(setting, scope, nodes, seq.span, seq)
}

/// A sequence with this span. What it defines is visible up to its end.
#[cycle(walk)]
fn sequence(
    setting: &Setting,
    scope: &mut List<Visible>,
    nodes: &mut List<Node>,
    span: Span,
    seq: &Seq,
) -> Result<u32, EmitStop>
    ensures gives { GivesNodes result nodes.new (put setting.now.number (spec.seq_of setting.now.context.now scope.old setting.now.depth span (seq_view seq.now)) nodes.old) }
    ensures scope { OnOk result (scope.new ≡ scope.old) }
{
    let before = scope.len();
    let tops = items(setting, scope, nodes, seq.items.as_slice())?;
    scope.truncate(before);
    close_sequence(setting, nodes, span, tops)
}

/// The items of a sequence, each with the locals of the earlier ones visible.
#[cycle(walk)]
pub(crate) fn items(
    setting: &Setting,
    scope: &mut List<Visible>,
    nodes: &mut List<Node>,
    xs: &[Item],
) -> Result<Tops, EmitStop>
    ensures gives { GivesNodes result nodes.new (puts setting.now.number (spec.roses_of_items setting.now.context.now scope.old setting.now.depth (items_view xs.now)) nodes.old) }
    ensures scope { OnOk result (take (length scope.old) scope.new ≡ scope.old) }
{
    let mut tops = Tops::new(setting.alloc);
    for x in xs {
        let top = item(setting, scope, nodes, x)?;
        tops.push(top)?;
    }
    Ok(tops)
}

/// An item of a sequence. What it defines is visible after it.
#[cycle(walk)]
fn item(
    setting: &Setting,
    scope: &mut List<Visible>,
    nodes: &mut List<Node>,
    part: &Item,
) -> Result<u32, EmitStop>
    ensures gives { GivesNodes result nodes.new (put setting.now.number (spec.item_of setting.now.context.now scope.old setting.now.depth (item_view part.now)) nodes.old) }
    ensures scope { OnOk result (scope.new ≡ scope_after setting.now.context.now scope.old (item_view part.now)) }
{
    match part {
        Item::Local {
            name,
            value,
            span,
            ..
        } => {
            let slot = setting.context.slot_at(name.span.start);
            let top = expr(setting, scope, nodes, value)?;
            let kind = NodeKind::Define(slot);
            let defined = single(setting, nodes, kind, *span, top)?;
            let text = ShortBytes::from_slice(setting.alloc, name.text.as_slice())?;
            scope.push(Visible::new(text, slot))?;
            Ok(defined)
        }
        Item::Plain(e) => expr(setting, scope, nodes, e),
    }
}
