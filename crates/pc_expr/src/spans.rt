//! The spans of parts of a tree in the text.
ghost use Rattle.std.specs.Prelude.{◌≡◌, map};
ghost use Rattle.pc_tree.specs.Tree as t;
ghost use Rattle.pc_tree.specs.Parts as parts;
ghost use Rattle.pc_tree.specs.View.{expr_view, item_view, suffix_view, arm_view};
ghost use Rattle.pc_grammar.specs.Spells as spells;
ghost use Rattle.pc_grammar.specs.Reading as reading;
ghost use Rattle.pc_expr.specs.Onto as onto;

use pc_base::Span;
use pc_tree::{Arm, Expr, Item, Suffix, join, span_of};

const NOWHERE: Span = Span { start: 0, end: 0 };

fn item_span(item: &Item) -> Span
    ensures { result ≡ parts.item_span (item_view item.now) }
{
    match item {
        Item::Local { span, .. } => *span,
        Item::Plain(e) => span_of(e),
    }
}

fn suffix_span(suffix: &Suffix) -> Span
    ensures { result ≡ parts.suffix_span (suffix_view suffix.now) }
{
    match suffix {
        Suffix::Dot(name) => name.span,
        Suffix::Args { span, .. } => *span,
    }
}

/// From the first item to the last.
#[tactic(auto, using(crate::proofs::Lasts::items_joined))]
pub fn items_span(items: &[Item]) -> Span
    ensures { result ≡ spells.span_from_to (reading.first_item (map item_view items.now)) (reading.last_item spells.no_span (map item_view items.now)) }
{
    match (items.first(), items.last()) {
        (Some(first), Some(last)) => join(item_span(first), item_span(last)),
        _ => NOWHERE,
    }
}

/// From the first term to the last.
#[tactic(auto, using(crate::proofs::Lasts::terms_joined))]
pub fn terms_span(terms: &[Expr]) -> Span
    ensures { result ≡ spells.span_from_to (reading.first_expr (map expr_view terms.now)) (reading.last_expr spells.no_span (map expr_view terms.now)) }
{
    match (terms.first(), terms.last()) {
        (Some(first), Some(last)) => join(span_of(first), span_of(last)),
        _ => NOWHERE,
    }
}

/// From an atom to its last suffix.
#[tactic(auto, using(crate::proofs::Lasts::last_suffix_is))]
pub fn chain_span(head: &Expr, suffixes: &[Suffix]) -> Span
    ensures { result ≡ spells.span_from_to (t.span_of (expr_view head.now))
        (reading.last_suffix (t.span_of (expr_view head.now)) (map suffix_view suffixes.now)) }
{
    let head = span_of(head);
    match suffixes.last() {
        Some(last) => join(head, suffix_span(last)),
        None => head,
    }
}

/// The span of the first arm.
pub fn first_arm(arms: &[Arm]) -> Span
    ensures { result ≡ onto.first_arm (map arm_view arms.now) }
{
    match arms.first() {
        Some(arm) => arm.span,
        None => NOWHERE,
    }
}
