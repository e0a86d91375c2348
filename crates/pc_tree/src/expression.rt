//! Trees of expressions and sequences.
use crate::kinds::Op;
use crate::written_names::{Name, TypeRef};
use pc_base::{List, SharedList, Span};
use pc_caps::Cap;

/// A sequence: one or more items, of which the last gives the value.
#[cycle(tree)]
#[derive(Debug, Drop)]
pub struct Seq {
    pub items: List<Item>,
    /// From its first token to its last.
    pub span: Span,
}

/// One item of a sequence.
#[cycle(tree)]
#[derive(Debug, Drop)]
pub enum Item {
    /// `let x: T = value` or `var x: T = value`.
    Local {
        /// Whether the word is `let`: the local is never assigned again.
        fixed: bool,
        name: Name,
        /// The type, if one is written.
        ty: Option<TypeRef>,
        value: Expr,
        span: Span,
    },
    /// An expression.
    Plain(Expr),
}

/// An expression (the Pony tutorial). An operator with one term, an atom without suffixes and an expression without `=`
/// are not wrapped.
#[cycle(tree)]
#[derive(Debug, Drop)]
pub enum Expr {
    Number {
        value: u64,
        span: Span,
    },
    /// `true` or `false`.
    Truth {
        value: bool,
        span: Span,
    },
    /// A text literal.
    Text {
        /// The bytes that it denotes.
        bytes: SharedList<u8>,
        span: Span,
    },
    Name(Name),
    TypeName(Name),
    This(Span),
    /// `consume x`: the value of the local, which is unset by it.
    Consume {
        name: Name,
        span: Span,
    },
    Not {
        inner: Box<Expr>,
        span: Span,
    },
    /// Two or more terms with one operator between them, grouped to the left.
    Infix {
        op: Op,
        terms: List<Expr>,
        span: Span,
    },
    /// An atom with one or more suffixes.
    Chain {
        head: Box<Expr>,
        suffixes: List<Suffix>,
        span: Span,
    },
    /// A sequence in parentheses; the span includes them.
    Group {
        body: Box<Seq>,
        span: Span,
    },
    If {
        /// The `if` and each `elseif`.
        arms: List<Arm>,
        /// What comes after `else`, if it is written.
        other: Option<Box<Seq>>,
        /// From `if` to `end`.
        span: Span,
    },
    While {
        cond: Box<Seq>,
        body: Box<Seq>,
        span: Span,
    },
    Recover {
        /// The capability, if one is written.
        cap: Option<Cap>,
        body: Box<Seq>,
        span: Span,
    },
    Assign {
        left: Box<Expr>,
        right: Box<Expr>,
        span: Span,
    },
}

/// What may come after an atom.
#[cycle(tree)]
#[derive(Debug, Drop)]
pub enum Suffix {
    /// `.name`; the span is that of the name alone.
    Dot(Name),
    /// Arguments in parentheses; the span includes them.
    Args { args: List<Expr>, span: Span },
}

/// A condition and what is done if it holds.
#[cycle(tree)]
#[derive(Debug, Drop)]
pub struct Arm {
    pub cond: Seq,
    pub body: Seq,
    /// From its keyword, `if` or `elseif`, to the end of its body.
    pub span: Span,
}
