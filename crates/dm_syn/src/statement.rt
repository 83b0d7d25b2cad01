//! Statements and external declarations (6.8, 6.9).

use crate::declaration::{Declaration, Declarator, Specifiers};
use crate::expression::Expr;
use dm_token::{Boxed, List, Span};

/// A statement (6.8).
#[cycle(statements)]
#[derive(Debug, Drop)]
pub struct Stmt {
    pub span: Span,
    pub form: StmtForm,
}

/// What a statement is made of.
#[cycle(statements)]
#[derive(Debug, Drop)]
pub enum StmtForm {
    /// A compound statement (6.8.2).
    Block(List<Item>),
    /// An expression statement, or a lone `;` (6.8.3).
    Expression(Option<Expr>),
    /// `if`, with the statement behind `else` if there is one (6.8.4.1).
    If(Expr, Boxed<Stmt>, Option<Boxed<Stmt>>),
    /// `switch` and what stands in its braces (6.8.4.2).
    Switch(Expr, List<SwitchItem>),
    /// `while` (6.8.5.1).
    While(Expr, Boxed<Stmt>),
    /// `do` (6.8.5.2).
    Do(Boxed<Stmt>, Expr),
    /// `for`: its start, its condition, its step and its body (6.8.5.3).
    For(ForStart, Option<Expr>, Option<Expr>, Boxed<Stmt>),
    Break,
    Continue,
    Return(Option<Expr>),
}

/// One item of a block (6.8.2).
#[cycle(statements)]
#[derive(Debug, Drop)]
pub enum Item {
    Declaration(Declaration),
    Statement(Stmt),
}

/// The first clause of a `for` (6.8.5.3).
#[derive(Debug, Drop)]
pub enum ForStart {
    Declaration(Declaration),
    Expression(Option<Expr>),
}

/// One item of a `switch` statement's braces.
#[cycle(statements)]
#[derive(Debug, Drop)]
pub struct SwitchItem {
    pub span: Span,
    pub form: SwitchForm,
}

/// A statement with its labels (6.8.1).
#[cycle(statements)]
#[derive(Debug, Drop)]
pub enum SwitchForm {
    Case(Expr, Boxed<SwitchItem>),
    Default(Boxed<SwitchItem>),
    Statement(Stmt),
}

/// An external declaration (6.9).
#[derive(Debug, Drop)]
pub struct External {
    pub span: Span,
    pub form: ExternalForm,
}

/// What an external declaration is made of.
#[derive(Debug, Drop)]
pub enum ExternalForm {
    Declaration(Declaration),
    /// A function definition: its specifiers, its declarator and its body (6.9.1).
    Function(Specifiers, Declarator, Stmt),
}
