//! Expressions (6.5).

use crate::declaration::TypeName;
use dm_token::{Boxed, List, Span};

/// An expression (6.5). In it and in the other trees a `u32` is the position of a token, unless said otherwise, and an
/// operator is the punctuator at its token.
#[cycle(expressions)]
#[derive(Debug, Drop)]
pub struct Expr {
    /// That of the node's own tokens.
    pub span: Span,
    pub form: ExprForm,
}

/// What an expression is made of.
#[cycle(expressions)]
#[derive(Debug, Drop)]
pub enum ExprForm {
    /// An identifier (6.5.1).
    Name,
    /// An integer or character constant (6.5.1).
    Constant,
    /// A string literal (6.5.1).
    Literal,
    /// An expression in parentheses (6.5.1).
    Paren(Boxed<Expr>),
    /// `a[b]` (6.5.2.1).
    Index(Boxed<Expr>, Boxed<Expr>),
    /// A call and its arguments (6.5.2.2).
    Call(Boxed<Expr>, List<Expr>),
    /// `a.b`, with the identifier (6.5.2.3).
    Member(Boxed<Expr>, u32),
    /// `a->b`, with the identifier (6.5.2.3).
    Arrow(Boxed<Expr>, u32),
    /// `a++` or `a--`, with the operator (6.5.2.4).
    Postfix(Boxed<Expr>, u32),
    /// `++`, `--` or a unary operator and its operand (6.5.3.1 to 6.5.3.3).
    Prefix(u32, Boxed<Expr>),
    /// `sizeof` of an expression (6.5.3.4).
    SizeofExpr(Boxed<Expr>),
    /// `sizeof` of a type name in parentheses (6.5.3.4).
    SizeofName(Boxed<TypeName>),
    /// A type name in parentheses and its operand (6.5.4).
    Cast(Boxed<TypeName>, Boxed<Expr>),
    /// Two operands and the operator between them (6.5.5 to 6.5.14).
    Binary(Boxed<Expr>, u32, Boxed<Expr>),
    /// `a ? b : c` (6.5.15).
    Conditional(Boxed<Expr>, Boxed<Expr>, Boxed<Expr>),
    /// An assignment, with the operator (6.5.16).
    Assign(Boxed<Expr>, u32, Boxed<Expr>),
    /// Two or more expressions with commas between them (6.5.17).
    Comma(List<Expr>),
}
