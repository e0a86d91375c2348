//! One function for each rule of the grammar. `left` is the number of levels that may still be opened.
ghost use Rattle.std.specs.Prelude.{◌≡◌, ◌≤◌, [], ◌∷◌, drop, map, IfOk, IfErr};
ghost use Rattle.pc_base.specs.declared.span.Span.{Span as Place};
ghost use Rattle.pc_token.specs.declared.signs.Sign.TheVariants.{Assign};
ghost use Rattle.pc_token.specs.Words as spec;
ghost use Rattle.pc_tree.specs.Tree as t;
ghost use Rattle.pc_tree.specs.View.{expr_view, item_view, suffix_view, arm_view, seq_view, exprs_view, other_view};
ghost use Rattle.pc_grammar.specs.Spells as spells;
ghost use Rattle.pc_grammar.specs.Reading as reading;
ghost use Rattle.pc_expr.specs.Gives.{StandsAtToken, Moves, GivesReading};
ghost use Rattle.pc_expr.specs.Onto as onto;
ghost use Rattle.pc_expr.specs.declared.stop.ParseStop.TheVariants.{Memory};

use crate::asking::{assigns, local_word};
use crate::atoms::{consume, maybe_cap, maybe_type, name, named, text, type_named};
use crate::spans::{chain_span, first_arm, items_span, terms_span};
use crate::stop::ParseStop;
use crate::tokens::{
    after_comma, after_op, at_elseif, at_suffix, look, next_item, take_sign, take_word,
};
use pc_base::{List, Span};
use pc_grammar::op_of;
use pc_token::{Sign, Token, TokenKind, Word, is_sign, is_word};
use pc_tree::{Arm, Expr, Item, Op, Seq, Suffix, join, span_of};
use std::alloc::Global;

/// Item {Next Item}, if `left` levels may still be opened.
#[cycle(rules)]
#[tactic(auto, using(pc_tree::proofs::Views::view_seq, crate::proofs::Parts::seq_by_items), unfolding(pc_grammar::specs::Reading::seq_of))]
pub fn seq(alloc: Global, tokens: &[Token], at: usize, left: u16) -> Result<(Seq, usize), ParseStop>
    requires { StandsAtToken tokens.now at }
    ensures gives { GivesReading seq_view tokens.now result (reading.seq_in left (reading.inner left) (drop at tokens.now)) }
    ensures moves { IfOk result (λ r. Moves tokens.now at r.1) }
{
    let (items, to) = items(alloc, tokens, at, left)?;
    let span = items_span(items.as_slice());
    Ok((Seq { items, span }, to))
}

/// The items of a sequence.
#[cycle(rules)]
fn items(
    alloc: Global,
    tokens: &[Token],
    at: usize,
    left: u16,
) -> Result<(List<Item>, usize), ParseStop>
    requires { StandsAtToken tokens.now at }
    ensures gives { GivesReading (map item_view) tokens.now result (reading.and_then (reading.item (reading.expr_in left (reading.inner left)) (drop at tokens.now)) (λ x. onto.more_items left (reading.inner left) (x ∷ []))) }
    ensures moves { IfOk result (λ r. Moves tokens.now at r.1) }
{
    let mut items = List::new(alloc);
    let mut to = at;
    'more: loop {
        let (one, after) = item(alloc, tokens, to, left)?;
        items.push_within(1, one)?;
        match next_item(tokens, after) {
            Some(next) => to = next,
            None => return Ok((items, after)),
        }
    }
}

/// ("var" | "let") Name [":" Type] "=" Expr  |  Expr
#[cycle(rules)]
#[tactic(auto, using(pc_tree::proofs::Views::view_plain), unfolding(pc_grammar::specs::Reading::item, pc_grammar::specs::Reading::peek))]
fn item(alloc: Global, tokens: &[Token], at: usize, left: u16) -> Result<(Item, usize), ParseStop>
    requires { StandsAtToken tokens.now at }
    ensures gives { GivesReading item_view tokens.now result (reading.item (reading.expr_in left (reading.inner left)) (drop at tokens.now)) }
    ensures moves { IfOk result (λ r. Moves tokens.now at r.1) }
{
    let token = look(tokens, at);
    if is_word(token, Word::LetWord) {
        return local(alloc, tokens, at, left, true);
    }
    if is_word(token, Word::VarWord) {
        return local(alloc, tokens, at, left, false);
    }
    let (e, to) = expr(alloc, tokens, at, left)?;
    Ok((Item::Plain(e), to))
}

/// ("var" | "let") Name [":" Type] "=" Expr
#[cycle(rules)]
#[tactic(auto, using(pc_tree::proofs::Views::view_local), unfolding(pc_grammar::specs::Reading::local))]
fn local(
    alloc: Global,
    tokens: &[Token],
    at: usize,
    left: u16,
    fixed: bool,
) -> Result<(Item, usize), ParseStop>
    requires { StandsAtToken tokens.now at }
    ensures gives { GivesReading item_view tokens.now result (reading.local fixed (reading.expr_in left (reading.inner left)) (drop at tokens.now)) }
    ensures moves { IfOk result (λ r. Moves tokens.now at r.1) }
{
    let (opener, begin) = take_word(tokens, at, local_word(fixed))?;
    let (name, to) = name(alloc, tokens, begin)?;
    let (ty, to) = maybe_type(alloc, tokens, to)?;
    let (_, begin) = take_sign(tokens, to, Sign::Assign)?;
    let (value, to) = expr(alloc, tokens, begin, left)?;
    let span = join(opener.span, span_of(&value));
    Ok((
        Item::Local {
            fixed,
            name,
            ty,
            value,
            span,
        },
        to,
    ))
}

/// Infix ["=" Expr]
#[cycle(rules)]
#[tactic(auto, unfolding(pc_grammar::specs::Reading::expr_in, pc_grammar::specs::Reading::expr_with, pc_grammar::specs::Reading::peek))]
pub fn expr(
    alloc: Global,
    tokens: &[Token],
    at: usize,
    left: u16,
) -> Result<(Expr, usize), ParseStop>
    requires { StandsAtToken tokens.now at }
    ensures gives { GivesReading expr_view tokens.now result (reading.expr_in left (reading.inner left) (drop at tokens.now)) }
    ensures moves { IfOk result (λ r. Moves tokens.now at r.1) }
{
    let (e, to) = infix(alloc, tokens, at, left)?;
    if assigns(look(tokens, to), &e) {
        match becomes(alloc, tokens, to, left) {
            Ok((right, to)) => Ok((assigned(alloc, e, right)?, to)),
            Err(stop) => {
                drop(e);
                Err(stop)
            }
        }
    } else {
        Ok((e, to))
    }
}

/// "=" Expr, after the expression that is assigned to.
#[cycle(rules)]
#[tactic(auto, using(pc_grammar::proofs::Levels::no_deeper, pc_grammar::proofs::Levels::one_deeper, pc_grammar::proofs::Levels::inner_expr))]
fn becomes(
    alloc: Global,
    tokens: &[Token],
    at: usize,
    left: u16,
) -> Result<(Expr, usize), ParseStop>
    requires { StandsAtToken tokens.now at }
    ensures gives { GivesReading expr_view tokens.now result (reading.deeper left (λ ts. reading.and_then (reading.take_if (spec.is_sign Assign) ts) (λ _. (reading.inner left).expr)) (drop at tokens.now)) }
    ensures moves { IfOk result (λ r. Moves tokens.now at r.1) }
{
    if left == 0 {
        return Err(ParseStop::TooDeep(at));
    }
    let (_, begin) = take_sign(tokens, at, Sign::Assign)?;
    expr(alloc, tokens, begin, left - 1)
}

/// The assignment of an expression.
fn assigned(alloc: Global, place: Expr, right: Expr) -> Result<Expr, ParseStop>
    ensures ok { IfOk result (λ e. expr_view e ≡ t.assign (expr_view place) (expr_view right) (spells.span_from_to (t.span_of (expr_view place)) (t.span_of (expr_view right)))) }
    ensures err { IfErr result (λ e. e ≡ Memory) }
{
    let span = join(span_of(&place), span_of(&right));
    match Box::new(alloc, place) {
        Ok(place) => assign(alloc, place, right, span),
        Err(failed) => {
            drop(right);
            Err(ParseStop::from(failed))
        }
    }
}

/// The assignment of an expression, with its spans.
#[tactic(auto, using(pc_tree::proofs::Views::view_assign))]
fn assign(alloc: Global, left: Box<Expr>, right: Expr, span: Span) -> Result<Expr, ParseStop>
    ensures ok { IfOk result (λ e. expr_view e ≡ t.assign (expr_view left.value) (expr_view right) span) }
    ensures err { IfErr result (λ e. e ≡ Memory) }
{
    match Box::new(alloc, right) {
        Ok(right) => Ok(Expr::Assign { left, right, span }),
        Err(failed) => {
            drop(left);
            Err(ParseStop::from(failed))
        }
    }
}

/// Term {Op Term}, if `left` levels may still be opened.
#[cycle(rules)]
#[tactic(auto, using(crate::proofs::Parts::infix_by_parts), unfolding(crate::specs::Onto::infix_parts, pc_grammar::specs::Reading::peek))]
pub fn infix(
    alloc: Global,
    tokens: &[Token],
    at: usize,
    left: u16,
) -> Result<(Expr, usize), ParseStop>
    requires { StandsAtToken tokens.now at }
    ensures gives { GivesReading expr_view tokens.now result (reading.infix_in left (reading.inner left) (drop at tokens.now)) }
    ensures moves { IfOk result (λ r. Moves tokens.now at r.1) }
{
    let (first, to) = term(alloc, tokens, at, left)?;
    match op_of(look(tokens, to)) {
        Some(op) => operators(alloc, tokens, to, left, first, op),
        None => Ok((first, to)),
    }
}

/// {Op Term}, after a term.
#[cycle(rules)]
#[tactic(auto, using(pc_tree::proofs::Views::view_infix), unfolding(crate::specs::Onto::chain_terms, pc_grammar::specs::Reading::infix_of))]
fn operators(
    alloc: Global,
    tokens: &[Token],
    at: usize,
    left: u16,
    first: Expr,
    op: Op,
) -> Result<(Expr, usize), ParseStop>
    requires { StandsAtToken tokens.now at }
    ensures gives { GivesReading expr_view tokens.now result (onto.chain_terms left (reading.inner left) op (expr_view first) (drop at tokens.now)) }
    ensures moves { IfOk result (λ r. (at ≤ r.1) × StandsAtToken tokens.now r.1) }
{
    let mut terms = List::new(alloc);
    terms.push_within(2, first)?;
    let (terms, to) = more_terms(alloc, tokens, at, left, op, terms)?;
    let span = terms_span(terms.as_slice());
    Ok((Expr::Infix { op, terms, span }, to))
}

/// {Op Term}, after some terms.
#[cycle(rules)]
fn more_terms(
    alloc: Global,
    tokens: &[Token],
    at: usize,
    left: u16,
    op: Op,
    so_far: List<Expr>,
) -> Result<(List<Expr>, usize), ParseStop>
    requires { StandsAtToken tokens.now at }
    ensures gives { GivesReading (map expr_view) tokens.now result (onto.more_terms left (reading.inner left) op (map expr_view so_far) (drop at tokens.now)) }
    ensures moves { IfOk result (λ r. (at ≤ r.1) × StandsAtToken tokens.now r.1) }
{
    let mut terms = so_far;
    let mut to = at;
    'more: while let Some(next) = after_op(tokens, to, op) {
        let (one, after) = term(alloc, tokens, next, left)?;
        terms.push(one)?;
        to = after;
    }
    Ok((terms, to))
}

/// "not" Term  |  "consume" Name  |  Postfix
#[cycle(rules)]
#[tactic(auto, unfolding(pc_grammar::specs::Reading::term, pc_grammar::specs::Reading::peek))]
fn term(alloc: Global, tokens: &[Token], at: usize, left: u16) -> Result<(Expr, usize), ParseStop>
    requires { StandsAtToken tokens.now at }
    ensures gives { GivesReading expr_view tokens.now result (reading.term left (reading.inner left) (drop at tokens.now)) }
    ensures moves { IfOk result (λ r. Moves tokens.now at r.1) }
{
    let token = look(tokens, at);
    if is_word(token, Word::NotWord) {
        negation(alloc, tokens, at, left)
    } else if is_word(token, Word::ConsumeWord) {
        consume(alloc, tokens, at)
    } else {
        postfix(alloc, tokens, at, left)
    }
}

/// "not" Term
#[cycle(rules)]
#[tactic(auto, using(pc_tree::proofs::Views::view_not, pc_grammar::proofs::Levels::no_deeper, pc_grammar::proofs::Levels::one_deeper, pc_grammar::proofs::Levels::inner_term), unfolding(pc_grammar::specs::Reading::negation))]
fn negation(
    alloc: Global,
    tokens: &[Token],
    at: usize,
    left: u16,
) -> Result<(Expr, usize), ParseStop>
    requires { StandsAtToken tokens.now at }
    ensures gives { GivesReading expr_view tokens.now result (reading.negation left (reading.inner left).term (drop at tokens.now)) }
    ensures moves { IfOk result (λ r. Moves tokens.now at r.1) }
{
    if left == 0 {
        return Err(ParseStop::TooDeep(at));
    }
    let (opener, begin) = take_word(tokens, at, Word::NotWord)?;
    let (inner, to) = term(alloc, tokens, begin, left - 1)?;
    let span = join(opener.span, span_of(&inner));
    let inner = Box::new(alloc, inner)?;
    Ok((Expr::Not { inner, span }, to))
}

/// Atom {"." Name | "(" [Expr {"," Expr}] ")"}
#[cycle(rules)]
#[tactic(auto, using(crate::proofs::Parts::postfix_by_parts), unfolding(crate::specs::Onto::postfix_parts, pc_grammar::specs::Reading::chain_of))]
fn postfix(
    alloc: Global,
    tokens: &[Token],
    at: usize,
    left: u16,
) -> Result<(Expr, usize), ParseStop>
    requires { StandsAtToken tokens.now at }
    ensures gives { GivesReading expr_view tokens.now result (reading.postfix left (reading.inner left) (drop at tokens.now)) }
    ensures moves { IfOk result (λ r. Moves tokens.now at r.1) }
{
    let (head, to) = atom(alloc, tokens, at, left)?;
    match more_suffixes(alloc, tokens, to, left, List::new(alloc)) {
        Ok((suffixes, to)) => Ok((chain(alloc, head, suffixes)?, to)),
        Err(stop) => {
            drop(head);
            Err(stop)
        }
    }
}

/// An atom with its suffixes; the atom alone if there are none.
#[tactic(auto, using(pc_tree::proofs::Views::view_chain), unfolding(pc_grammar::specs::Reading::chain_of))]
fn chain(alloc: Global, head: Expr, suffixes: List<Suffix>) -> Result<Expr, ParseStop>
    ensures ok { IfOk result (λ e. expr_view e ≡ reading.chain_of (expr_view head) (map suffix_view suffixes)) }
    ensures err { IfErr result (λ e. e ≡ Memory) }
{
    if suffixes.is_empty() {
        return Ok(head);
    }
    let span = chain_span(&head, suffixes.as_slice());
    let head = Box::new(alloc, head)?;
    Ok(Expr::Chain {
        head,
        suffixes,
        span,
    })
}

/// {"." Name | "(" [Expr {"," Expr}] ")"}, after some suffixes.
#[cycle(rules)]
fn more_suffixes(
    alloc: Global,
    tokens: &[Token],
    at: usize,
    left: u16,
    so_far: List<Suffix>,
) -> Result<(List<Suffix>, usize), ParseStop>
    requires { StandsAtToken tokens.now at }
    ensures gives { GivesReading (map suffix_view) tokens.now result
        (onto.more_suffixes left (reading.inner left) (map suffix_view so_far) (drop at tokens.now)) }
    ensures moves { IfOk result (λ r. (at ≤ r.1) × StandsAtToken tokens.now r.1) }
{
    let mut suffixes = so_far;
    let mut to = at;
    'more: while let Some(next) = at_suffix(tokens, to) {
        let (one, after) = suffix(alloc, tokens, next, left)?;
        suffixes.push_within(2, one)?;
        to = after;
    }
    Ok((suffixes, to))
}

/// "." Name  |  "(" [Expr {"," Expr}] ")"
#[cycle(rules)]
#[tactic(auto, using(pc_tree::proofs::Views::view_dot, crate::proofs::Ends::is_sign_not_end), unfolding(pc_grammar::specs::Reading::suffix, pc_grammar::specs::Reading::peek, pc_grammar::specs::Reading::take_if))]
fn suffix(
    alloc: Global,
    tokens: &[Token],
    at: usize,
    left: u16,
) -> Result<(Suffix, usize), ParseStop>
    requires { StandsAtToken tokens.now at }
    ensures gives { GivesReading suffix_view tokens.now result (reading.suffix left (reading.inner left).expr (drop at tokens.now)) }
    ensures moves { IfOk result (λ r. Moves tokens.now at r.1) }
{
    if !is_sign(look(tokens, at), Sign::Dot) {
        return arguments(alloc, tokens, at, left);
    }
    let (name, to) = name(alloc, tokens, at + 1)?;
    Ok((Suffix::Dot(name), to))
}

/// "(" [Expr {"," Expr}] ")"
#[cycle(rules)]
#[tactic(auto, using(pc_tree::proofs::Views::view_args, pc_grammar::proofs::Levels::no_deeper, pc_grammar::proofs::Levels::one_deeper, pc_grammar::proofs::Levels::inner_expr), unfolding(pc_grammar::specs::Reading::args))]
fn arguments(
    alloc: Global,
    tokens: &[Token],
    at: usize,
    left: u16,
) -> Result<(Suffix, usize), ParseStop>
    requires { StandsAtToken tokens.now at }
    ensures gives { GivesReading suffix_view tokens.now result (reading.args left (reading.inner left).expr (drop at tokens.now)) }
    ensures moves { IfOk result (λ r. Moves tokens.now at r.1) }
{
    if left == 0 {
        return Err(ParseStop::TooDeep(at));
    }
    let (opener, begin) = take_sign(tokens, at, Sign::OpenParen)?;
    let (args, end) = arg_list(alloc, tokens, begin, left - 1)?;
    let (close, to) = take_sign(tokens, end, Sign::CloseParen)?;
    let span = join(opener.span, close.span);
    Ok((Suffix::Args { args, span }, to))
}

/// [Expr {"," Expr}], before a ")"
#[cycle(rules)]
#[tactic(auto, using(crate::proofs::Parts::args_by_parts), unfolding(crate::specs::Onto::arg_list_parts, pc_grammar::specs::Reading::peek))]
fn arg_list(
    alloc: Global,
    tokens: &[Token],
    at: usize,
    left: u16,
) -> Result<(List<Expr>, usize), ParseStop>
    requires { StandsAtToken tokens.now at }
    ensures gives { GivesReading exprs_view tokens.now result (reading.arg_list (reading.expr_in left (reading.inner left)) (drop at tokens.now)) }
    ensures moves { IfOk result (λ r. (at ≤ r.1) × StandsAtToken tokens.now r.1) }
{
    if is_sign(look(tokens, at), Sign::CloseParen) {
        return Ok((List::new(alloc), at));
    }
    some_args(alloc, tokens, at, left)
}

/// Expr {"," Expr}
#[cycle(rules)]
fn some_args(
    alloc: Global,
    tokens: &[Token],
    at: usize,
    left: u16,
) -> Result<(List<Expr>, usize), ParseStop>
    requires { StandsAtToken tokens.now at }
    ensures gives { GivesReading (map expr_view) tokens.now result (onto.some_args (reading.expr_in left (reading.inner left)) (drop at tokens.now)) }
    ensures moves { IfOk result (λ r. Moves tokens.now at r.1) }
{
    let mut args = List::new(alloc);
    let mut to = at;
    'more: loop {
        let (one, after) = expr(alloc, tokens, to, left)?;
        args.push_within(1, one)?;
        match after_comma(tokens, after) {
            Some(next) => to = next,
            None => return Ok((args, after)),
        }
    }
}

/// One token, or something in brackets.
#[cycle(rules)]
#[tactic(auto, using(pc_tree::proofs::Views::view_number, pc_tree::proofs::Views::view_truth, pc_tree::proofs::Views::view_this), unfolding(pc_grammar::specs::Reading::atom, pc_grammar::specs::Reading::peek, pc_grammar::specs::Reading::take_if, crate::specs::Onto::named, crate::specs::Onto::type_named, crate::specs::Onto::text_at))]
fn atom(alloc: Global, tokens: &[Token], at: usize, left: u16) -> Result<(Expr, usize), ParseStop>
    requires { StandsAtToken tokens.now at }
    ensures gives { GivesReading expr_view tokens.now result (reading.atom left (reading.inner left).seq (drop at tokens.now)) }
    ensures moves { IfOk result (λ r. Moves tokens.now at r.1) }
{
    let token = look(tokens, at);
    let span = token.span;
    match &token.kind {
        TokenKind::Name(_) => named(alloc, tokens, at),
        TokenKind::TypeName(_) => type_named(alloc, tokens, at),
        TokenKind::Number(value) => Ok((
            Expr::Number {
                value: *value,
                span,
            },
            at + 1,
        )),
        TokenKind::Text(_) => text(alloc, tokens, at),
        TokenKind::Word(Word::ThisWord) => Ok((Expr::This(span), at + 1)),
        TokenKind::Word(Word::TrueWord) => Ok((Expr::Truth { value: true, span }, at + 1)),
        TokenKind::Word(Word::FalseWord) => Ok((Expr::Truth { value: false, span }, at + 1)),
        TokenKind::Sign(Sign::OpenParen) => group(alloc, tokens, at, left),
        TokenKind::Word(Word::IfWord) => choice(alloc, tokens, at, left),
        TokenKind::Word(Word::WhileWord) => repetition(alloc, tokens, at, left),
        TokenKind::Word(Word::RecoverWord) => recovery(alloc, tokens, at, left),
        TokenKind::Word(_) | TokenKind::Doc | TokenKind::Sign(_) | TokenKind::End => Err(
            ParseStop::Unexpected(at),
        ),
    }
}

/// "(" Seq ")"
#[cycle(rules)]
#[tactic(auto, using(pc_tree::proofs::Views::view_group, pc_grammar::proofs::Levels::no_deeper, pc_grammar::proofs::Levels::one_deeper, pc_grammar::proofs::Levels::inner_seq), unfolding(pc_grammar::specs::Reading::group))]
fn group(alloc: Global, tokens: &[Token], at: usize, left: u16) -> Result<(Expr, usize), ParseStop>
    requires { StandsAtToken tokens.now at }
    ensures gives { GivesReading expr_view tokens.now result (reading.group left (reading.inner left).seq (drop at tokens.now)) }
    ensures moves { IfOk result (λ r. Moves tokens.now at r.1) }
{
    if left == 0 {
        return Err(ParseStop::TooDeep(at));
    }
    let (opener, begin) = take_sign(tokens, at, Sign::OpenParen)?;
    let (body, end) = seq(alloc, tokens, begin, left - 1)?;
    let (close, to) = take_sign(tokens, end, Sign::CloseParen)?;
    let span = join(opener.span, close.span);
    let body = Box::new(alloc, body)?;
    Ok((Expr::Group { body, span }, to))
}

/// "if" Seq "then" Seq {"elseif" Seq "then" Seq} ["else" Seq] "end"
#[cycle(rules)]
#[tactic(auto, using(pc_tree::proofs::Views::view_if, crate::proofs::Parts::if_by_parts, pc_grammar::proofs::Levels::no_deeper, pc_grammar::proofs::Levels::one_deeper, pc_grammar::proofs::Levels::inner_seq), unfolding(crate::specs::Onto::if_parts))]
fn choice(alloc: Global, tokens: &[Token], at: usize, left: u16) -> Result<(Expr, usize), ParseStop>
    requires { StandsAtToken tokens.now at }
    ensures gives { GivesReading expr_view tokens.now result (reading.if_ left (reading.inner left).seq (drop at tokens.now)) }
    ensures moves { IfOk result (λ r. Moves tokens.now at r.1) }
{
    if left == 0 {
        return Err(ParseStop::TooDeep(at));
    }
    let (arms, end) = arms(alloc, tokens, at, left - 1)?;
    let (other, end) = otherwise(alloc, tokens, end, left - 1)?;
    let (close, to) = take_word(tokens, end, Word::EndWord)?;
    let span = join(first_arm(arms.as_slice()), close.span);
    Ok((Expr::If { arms, other, span }, to))
}

/// "if" Seq "then" Seq {"elseif" Seq "then" Seq}
#[cycle(rules)]
#[tactic(auto, unfolding(crate::specs::Onto::arms))]
fn arms(
    alloc: Global,
    tokens: &[Token],
    at: usize,
    left: u16,
) -> Result<(List<Arm>, usize), ParseStop>
    requires { StandsAtToken tokens.now at }
    ensures gives { GivesReading (map arm_view) tokens.now result (onto.arms (reading.seq_in left (reading.inner left)) (drop at tokens.now)) }
    ensures moves { IfOk result (λ r. Moves tokens.now at r.1) }
{
    let (first, to) = arm(alloc, tokens, at, left, Word::IfWord)?;
    let mut arms = List::new(alloc);
    arms.push_within(1, first)?;
    more_arms(alloc, tokens, to, left, arms)
}

/// {"elseif" Seq "then" Seq}, after some arms.
#[cycle(rules)]
fn more_arms(
    alloc: Global,
    tokens: &[Token],
    at: usize,
    left: u16,
    so_far: List<Arm>,
) -> Result<(List<Arm>, usize), ParseStop>
    requires { StandsAtToken tokens.now at }
    ensures gives { GivesReading (map arm_view) tokens.now result (onto.more_arms (reading.seq_in left (reading.inner left)) (map arm_view so_far) (drop at tokens.now)) }
    ensures moves { IfOk result (λ r. (at ≤ r.1) × StandsAtToken tokens.now r.1) }
{
    let mut arms = so_far;
    let mut to = at;
    'more: while let Some(next) = at_elseif(tokens, to) {
        let (one, after) = arm(alloc, tokens, next, left, Word::ElseifWord)?;
        arms.push(one)?;
        to = after;
    }
    Ok((arms, to))
}

/// "if" Seq "then" Seq, or the same with another keyword.
#[cycle(rules)]
#[tactic(auto, using(pc_tree::proofs::Views::view_arm, crate::proofs::Parts::arm_reads))]
fn arm(
    alloc: Global,
    tokens: &[Token],
    at: usize,
    left: u16,
    word: Word,
) -> Result<(Arm, usize), ParseStop>
    requires { StandsAtToken tokens.now at }
    ensures gives { GivesReading arm_view tokens.now result (reading.arm word (reading.seq_in left (reading.inner left)) (drop at tokens.now)) }
    ensures moves { IfOk result (λ r. Moves tokens.now at r.1) }
{
    let (opener, begin) = take_word(tokens, at, word)?;
    let ((cond, _), begin) = closed(alloc, tokens, begin, left, Word::ThenWord)?;
    match seq(alloc, tokens, begin, left) {
        Ok((body, to)) => {
            let span = join(opener.span, body.span);
            Ok((Arm { cond, body, span }, to))
        }
        Err(stop) => {
            drop(cond);
            Err(stop)
        }
    }
}

/// Seq and the keyword after it, with the span of that keyword.
#[cycle(rules)]
#[tactic(auto, using(crate::proofs::Ends::is_word_not_end), unfolding(pc_grammar::specs::Reading::take_if))]
fn closed(
    alloc: Global,
    tokens: &[Token],
    at: usize,
    left: u16,
    word: Word,
) -> Result<((Seq, Span), usize), ParseStop>
    requires { StandsAtToken tokens.now at }
    ensures gives { GivesReading {Y = t.Seq × Place} (λ p. (seq_view p.0, p.1)) tokens.now result (reading.and_then (reading.seq_in left (reading.inner left) (drop at tokens.now)) (λ body ts. reading.and_then (reading.take_if (spec.is_word word) ts) (λ close. reading.pure (body, close.span)))) }
    ensures moves { IfOk result (λ r. Moves tokens.now at r.1) }
{
    let (body, end) = seq(alloc, tokens, at, left)?;
    let token = look(tokens, end);
    if is_word(token, word) {
        Ok(((body, token.span), end + 1))
    } else {
        drop(body);
        Err(ParseStop::Unexpected(end))
    }
}

/// ["else" Seq]
#[cycle(rules)]
#[tactic(auto, using(crate::proofs::Ends::is_word_not_end), unfolding(pc_grammar::specs::Reading::other, pc_grammar::specs::Reading::peek, pc_grammar::specs::Reading::take_if))]
fn otherwise(
    alloc: Global,
    tokens: &[Token],
    at: usize,
    left: u16,
) -> Result<(Option<Box<Seq>>, usize), ParseStop>
    requires { StandsAtToken tokens.now at }
    ensures gives { GivesReading other_view tokens.now result (reading.other (reading.seq_in left (reading.inner left)) (drop at tokens.now)) }
    ensures moves { IfOk result (λ r. (at ≤ r.1) × StandsAtToken tokens.now r.1) }
{
    if !is_word(look(tokens, at), Word::ElseWord) {
        return Ok((None, at));
    }
    let (body, to) = seq(alloc, tokens, at + 1, left)?;
    Ok((Some(Box::new(alloc, body)?), to))
}

/// "while" Seq "do" Seq "end"
#[cycle(rules)]
#[tactic(auto, using(crate::proofs::Parts::while_deep, crate::proofs::Parts::while_reads))]
fn repetition(
    alloc: Global,
    tokens: &[Token],
    at: usize,
    left: u16,
) -> Result<(Expr, usize), ParseStop>
    requires { StandsAtToken tokens.now at }
    ensures gives { GivesReading expr_view tokens.now result (reading.while_ left (reading.inner left).seq (drop at tokens.now)) }
    ensures moves { IfOk result (λ r. Moves tokens.now at r.1) }
{
    if left == 0 {
        return Err(ParseStop::TooDeep(at));
    }
    let (opener, begin) = take_word(tokens, at, Word::WhileWord)?;
    let ((cond, _), begin) = closed(alloc, tokens, begin, left - 1, Word::DoWord)?;
    match closed(alloc, tokens, begin, left - 1, Word::EndWord) {
        Ok(((body, close), to)) => {
            let span = join(opener.span, close);
            Ok((repeated(alloc, cond, body, span)?, to))
        }
        Err(stop) => {
            drop(cond);
            Err(stop)
        }
    }
}

/// A loop with its condition and body.
#[tactic(auto, using(pc_tree::proofs::Views::view_while))]
fn repeated(alloc: Global, cond: Seq, body: Seq, span: Span) -> Result<Expr, ParseStop>
    ensures ok { IfOk result (λ e. expr_view e ≡ t.while_ (seq_view cond) (seq_view body) span) }
    ensures err { IfErr result (λ e. e ≡ Memory) }
{
    let cond = Box::new(alloc, cond)?;
    let body = Box::new(alloc, body)?;
    Ok(Expr::While { cond, body, span })
}

/// "recover" [Cap] Seq "end"
#[cycle(rules)]
#[tactic(auto, using(pc_tree::proofs::Views::view_recover, crate::proofs::Parts::recover_deep, crate::proofs::Parts::recover_reads))]
fn recovery(
    alloc: Global,
    tokens: &[Token],
    at: usize,
    left: u16,
) -> Result<(Expr, usize), ParseStop>
    requires { StandsAtToken tokens.now at }
    ensures gives { GivesReading expr_view tokens.now result (reading.recover_ left (reading.inner left).seq (drop at tokens.now)) }
    ensures moves { IfOk result (λ r. Moves tokens.now at r.1) }
{
    if left == 0 {
        return Err(ParseStop::TooDeep(at));
    }
    let (opener, begin) = take_word(tokens, at, Word::RecoverWord)?;
    let (cap, begin) = maybe_cap(tokens, begin);
    let ((body, close), to) = closed(alloc, tokens, begin, left - 1, Word::EndWord)?;
    let span = join(opener.span, close);
    let body = Box::new(alloc, body)?;
    Ok((Expr::Recover { cap, body, span }, to))
}
