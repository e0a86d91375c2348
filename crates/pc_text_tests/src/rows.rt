//! A tree as a list of rows, each part before what it contains.
use pc_base::Span;
use pc_tree::{Arm, Expr, Item, Op, Seq, Suffix, span_of};

/// A part of a tree: what it is, and where it begins and ends.
pub type Row = (&'static str, u32, u32);

/// A walk through a tree beside the rows that it should have: its place among them, and the first that is another.
#[derive(Drop)]
struct Walk {
    wanted: &'static [Row],
    place: usize,
    other: Option<usize>,
}

impl Walk {
    fn meet(&mut self, label: &'static str, span: Span) {
        let row = (label, span.start, span.end);
        if self.other.is_none() && self.wanted.get(self.place).copied() != Some(row) {
            self.other = Some(self.place);
        }
        self.place = self.place.saturating_add(1);
    }
}

fn op_label(op: Op) -> &'static str {
    match op {
        Op::Add => "+",
        Op::Sub => "-",
        Op::Mul => "*",
        Op::Div => "/",
        Op::Rem => "%",
        Op::Eq => "==",
        Op::Ne => "!=",
        Op::Lt => "<",
        Op::Le => "<=",
        Op::Gt => ">",
        Op::Ge => ">=",
        Op::And => "and",
        Op::Or => "or",
        Op::Xor => "xor",
        Op::Is => "is",
        Op::Isnt => "isnt",
    }
}

// What an expression is.
fn label_of(e: &Expr) -> &'static str {
    match e {
        Expr::Number { .. } => "number",
        Expr::Truth { .. } => "truth",
        Expr::Text { .. } => "text",
        Expr::Name(_) => "name",
        Expr::TypeName(_) => "type name",
        Expr::This(_) => "this",
        Expr::Consume { .. } => "consume",
        Expr::Not { .. } => "not",
        Expr::Infix { op, .. } => op_label(*op),
        Expr::Chain { .. } => "chain",
        Expr::Group { .. } => "group",
        Expr::If { .. } => "if",
        Expr::While { .. } => "while",
        Expr::Recover { .. } => "recover",
        Expr::Assign { .. } => "=",
    }
}

#[cycle(rows)]
fn of_seq(walk: &mut Walk, seq: &Seq) {
    walk.meet("seq", seq.span);
    for item in seq.items.as_slice() {
        of_item(walk, item);
    }
}

#[cycle(rows)]
fn of_item(walk: &mut Walk, item: &Item) {
    match item {
        Item::Local {
            fixed,
            value,
            span,
            ..
        } => {
            walk.meet(if *fixed { "let" } else { "var" }, *span);
            of_expr(walk, value)
        }
        Item::Plain(e) => of_expr(walk, e),
    }
}

#[cycle(rows)]
fn of_exprs(walk: &mut Walk, exprs: &[Expr]) {
    for e in exprs {
        of_expr(walk, e);
    }
}

#[cycle(rows)]
fn of_expr(walk: &mut Walk, e: &Expr) {
    walk.meet(label_of(e), span_of(e));
    match e {
        Expr::Number { .. }
        | Expr::Truth { .. }
        | Expr::Text { .. }
        | Expr::Name(_)
        | Expr::TypeName(_)
        | Expr::This(_)
        | Expr::Consume { .. } => {}
        Expr::Not { inner, .. } => of_expr(walk, inner),
        Expr::Infix { terms, .. } => of_exprs(walk, terms.as_slice()),
        Expr::Chain { head, suffixes, .. } => {
            of_expr(walk, head);
            of_suffixes(walk, suffixes.as_slice())
        }
        Expr::Group { body, .. } | Expr::Recover { body, .. } => of_seq(walk, body),
        Expr::If { arms, other, .. } => {
            of_arms(walk, arms.as_slice());
            match other {
                Some(body) => of_seq(walk, body),
                None => {}
            }
        }
        Expr::While { cond, body, .. } => {
            of_seq(walk, cond);
            of_seq(walk, body)
        }
        Expr::Assign { left, right, .. } => {
            of_expr(walk, left);
            of_expr(walk, right)
        }
    }
}

#[cycle(rows)]
fn of_suffixes(walk: &mut Walk, suffixes: &[Suffix]) {
    for suffix in suffixes {
        match suffix {
            Suffix::Dot(name) => walk.meet("dot", name.span),
            Suffix::Args { args, span } => {
                walk.meet("arguments", *span);
                of_exprs(walk, args.as_slice())
            }
        }
    }
}

#[cycle(rows)]
fn of_arms(walk: &mut Walk, arms: &[Arm]) {
    for arm in arms {
        walk.meet("arm", arm.span);
        of_seq(walk, &arm.cond);
        of_seq(walk, &arm.body);
    }
}

/// The place of the first row of a sequence that is not as it should be, if there is one.
pub fn other_row(seq: &Seq, wanted: &'static [Row]) -> Option<usize> {
    let mut walk = Walk {
        wanted,
        place: 0,
        other: None,
    };
    of_seq(&mut walk, seq);
    if walk.other.is_none() && walk.place != wanted.len() {
        return Some(walk.place);
    }
    walk.other
}
