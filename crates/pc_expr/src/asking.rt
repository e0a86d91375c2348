//! What may come before an `=`.
ghost use Rattle.std.specs.Prelude.{◌≡◌, false};
ghost use Rattle.pc_tree.specs.View.{expr_view, suffix_view, suffixes_view};
ghost use Rattle.pc_grammar.specs.Spells as grammar;
ghost use Rattle.pc_grammar.specs.Reading as reading;

use pc_token::{Sign, Token, Word, is_sign};
use pc_tree::{Expr, Suffix};

/// The keyword of a local, `let` if it is fixed.
pub fn local_word(fixed: bool) -> Word
    ensures { result ≡ grammar.local_word fixed }
{
    if fixed { Word::LetWord } else { Word::VarWord }
}

fn is_dot(suffix: &Suffix) -> bool
    ensures { result ≡ grammar.is_dot (suffix_view suffix.now) }
{
    match suffix {
        Suffix::Dot(_) => true,
        Suffix::Args { .. } => false,
    }
}

/// Whether the last suffix is a name.
fn ends_in_dot(suffixes: &[Suffix]) -> bool
    ensures { result ≡ grammar.ends_in_dot false (suffixes_view suffixes.now) }
{
    let mut dot = false;
    for suffix in suffixes {
        dot = is_dot(suffix);
    }
    dot
}

/// Whether it may come before an `=`.
fn is_place(expression: &Expr) -> bool
    ensures { result ≡ grammar.is_place (expr_view expression.now) }
{
    match expression {
        Expr::Name(_) => true,
        Expr::Chain { suffixes, .. } => ends_in_dot(suffixes.as_slice()),
        Expr::Number { .. }
        | Expr::Truth { .. }
        | Expr::Text { .. }
        | Expr::TypeName(_)
        | Expr::This(_)
        | Expr::Consume { .. }
        | Expr::Not { .. }
        | Expr::Infix { .. }
        | Expr::Group { .. }
        | Expr::If { .. }
        | Expr::While { .. }
        | Expr::Recover { .. }
        | Expr::Assign { .. } => false,
    }
}

/// Whether the token is an `=` after something that can be assigned.
pub fn assigns(token: &Token, expression: &Expr) -> bool
    ensures { result ≡ reading.assigns token.now (expr_view expression.now) }
{
    is_sign(token, Sign::Assign) && is_place(expression)
}
