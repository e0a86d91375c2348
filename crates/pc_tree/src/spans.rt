//! The spans of expressions in the text.
ghost use Rattle.std.specs.Prelude.{◌≡◌};
ghost use Rattle.pc_tree.specs.Tree as spec;
ghost use Rattle.pc_tree.specs.View.{expr_view};

use crate::expression::Expr;
use pc_base::Span;

/// From the start of the first to the end of the second.
pub fn join(first: Span, second: Span) -> Span
    ensures { result ≡ record { start = first.start; end = second.end } }
{
    Span {
        start: first.start,
        end: second.end,
    }
}

/// The span of an expression in the text.
pub fn span_of(expression: &Expr) -> Span
    ensures { result ≡ spec.span_of (expr_view expression.now) }
{
    match expression {
        Expr::Name(name) | Expr::TypeName(name) => name.span,
        Expr::This(span) => *span,
        Expr::Number { span, .. }
        | Expr::Truth { span, .. }
        | Expr::Text { span, .. }
        | Expr::Consume { span, .. }
        | Expr::Not { span, .. }
        | Expr::Infix { span, .. }
        | Expr::Chain { span, .. }
        | Expr::Group { span, .. }
        | Expr::If { span, .. }
        | Expr::While { span, .. }
        | Expr::Recover { span, .. }
        | Expr::Assign { span, .. } => *span,
    }
}
