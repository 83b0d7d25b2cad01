//! Expressions within statements (6.8), and the statements that hold no other.

ghost use Rattle.std.specs.Prelude.{◌≡◌, ◌<◌, ◌+◌, ℕ, true, false, List, Option, Some, IfOk, IfSome, length, option_map};
ghost use Rattle.dm_syn.specs.declared.declared.Declared.{Declared};
ghost use Rattle.dm_syn.specs.declared.symbol.Symbol.TheVariants.{End};
ghost use Rattle.dm_syn.specs.Symbols.{is};
ghost use Rattle.dm_syn.specs.Trees as tree;
ghost use Rattle.dm_pexpr.specs.Parsing.{lower, and_then};
ghost use Rattle.dm_pexpr.specs.Parts.{source_of, Gives, an_expr};
ghost use Rattle.dm_pstmt.specs.Kinds.{a_stmt, an_optional};
ghost use Rattle.dm_pstmt.specs.Parsing.{stands, within, enclosed_of, enclosed_by, stmt_by, evaluating, returning, breaking, continuing};
ghost use Rattle.dm_pstmt.specs.Steps.{clause_of, closed_by};

use crate::nodes::{break_at, continue_at, expression, return_of};
use dm_pexpr::{Part, Reader, Scope};
use dm_syn::{Expr, Stmt, Symbol};
use dm_token::{Boxed, Memory};

/// `(`, an expression and `)`, as behind `if`. The part ends before the `)`.
pub(crate) fn enclosed(
    reader: &Reader,
    scope: &mut Scope,
    at: u32,
    depth: u32,
) -> Result<Option<Part<Expr>>, Memory>
    ensures read { IfOk result (λ found. Gives (an_expr (source_of reader.now)) (source_of reader.now) scope.old scope.new found (enclosed_of (source_of reader.now) (lower (source_of reader.now) depth) scope.old at)) }
    ensures inside { IfOk result (λ found. IfSome found (λ expr. expr.after < length reader.now.tokens.now)) }
{
    let Some(next) = reader.behind(scope, at, Symbol::LeftParen) else {
        return Ok(None);
    };
    let expr = reader.expr(scope, next, 0, depth)?;
    Ok(before_paren(reader, scope, expr))
}

// An expression, where `)` stands behind it.
fn before_paren(reader: &Reader, scope: &Scope, expr: Option<Part<Expr>>) -> Option<Part<Expr>>
    ensures read { (before : List Declared) (wanted : Option tree.Expr) → Gives (an_expr (source_of reader.now)) (source_of reader.now) before scope.now expr wanted
        → Gives (an_expr (source_of reader.now)) (source_of reader.now) before scope.now result (and_then (enclosed_by (source_of reader.now) before) wanted) }
    ensures inside { IfSome result (λ expr. expr.after < length reader.now.tokens.now) }
{
    let expr = expr?;
    reader.behind(scope, expr.after, Symbol::RightParen)?;
    Some(expr)
}

/// An expression that may be absent, and the symbol behind it. The part ends before that symbol.
pub(crate) fn clause(
    reader: &Reader,
    scope: &mut Scope,
    at: u32,
    stop: Symbol,
    depth: u32,
) -> Result<Option<Part<Option<Expr>>>, Memory>
    requires { is stop End ≡ false }
    ensures read { IfOk result (λ found. Gives (an_optional (source_of reader.now) at) (source_of reader.now) scope.old scope.new found (clause_of (source_of reader.now) (lower (source_of reader.now) depth) stop scope.old at)) }
    ensures inside { IfOk result (λ found. IfSome found (λ part. (stands (source_of reader.now) scope.new part.after stop ≡ true) × (part.after < length reader.now.tokens.now))) }
{
    if reader.behind(scope, at, stop).is_some() {
        return Ok(Some(Part {
            tree: None,
            height: 0,
            after: at,
        }));
    }
    let expr = reader.expr(scope, at, 0, depth)?;
    Ok(before_stop(reader, scope, expr, stop))
}

// An expression, where the symbol stands behind it.
fn before_stop(
    reader: &Reader,
    scope: &Scope,
    expr: Option<Part<Expr>>,
    stop: Symbol,
) -> Option<Part<Option<Expr>>>
    requires { is stop End ≡ false }
    ensures read { (before : List Declared) (at : ℕ) (wanted : Option tree.Expr) → Gives (an_expr (source_of reader.now)) (source_of reader.now) before scope.now expr wanted
        → Gives (an_optional (source_of reader.now) at) (source_of reader.now) before scope.now result (and_then (closed_by (source_of reader.now) before at stop) (option_map Some wanted)) }
    ensures inside { IfSome result (λ part. (stands (source_of reader.now) scope.now part.after stop ≡ true) × (part.after < length reader.now.tokens.now)) }
{
    let expr = expr?;
    reader.behind(scope, expr.after, stop)?;
    Some(Part {
        tree: Some(expr.tree),
        height: expr.height,
        after: expr.after,
    })
}

/// An expression statement, or a lone `;` (6.8.3).
pub(crate) fn expression_statement(
    reader: &Reader,
    scope: &mut Scope,
    at: u32,
    depth: u32,
) -> Result<Option<Part<Boxed<Stmt>>>, Memory>
    ensures { IfOk result (λ found. Gives (a_stmt (source_of reader.now)) (source_of reader.now) scope.old scope.new found (stmt_by (source_of reader.now) (within (source_of reader.now) depth) scope.old at evaluating)) }
{
    let Some(value) = clause(reader, scope, at, Symbol::Semicolon, depth)? else {
        return Ok(None);
    };
    let after = value.after + 1;
    expression(reader.alloc, at, value, after)
}

/// `return`, behind which a value may stand (6.8.6.4).
pub(crate) fn return_statement(
    reader: &Reader,
    scope: &mut Scope,
    first: u32,
    next: u32,
    depth: u32,
) -> Result<Option<Part<Boxed<Stmt>>>, Memory>
    requires { next ≡ first + 1 }
    ensures { IfOk result (λ found. Gives (a_stmt (source_of reader.now)) (source_of reader.now) scope.old scope.new found (stmt_by (source_of reader.now) (within (source_of reader.now) depth) scope.old first returning)) }
{
    let Some(value) = clause(reader, scope, next, Symbol::Semicolon, depth)? else {
        return Ok(None);
    };
    let after = value.after + 1;
    return_of(reader.alloc, first, value, after)
}

/// `break` and `;` (6.8.6.3).
pub(crate) fn break_statement(
    reader: &Reader,
    scope: &Scope,
    first: u32,
    next: u32,
) -> Result<Option<Part<Boxed<Stmt>>>, Memory>
    requires { next ≡ first + 1 }
    ensures { (depth : ℕ) → IfOk result (λ found. Gives (a_stmt (source_of reader.now)) (source_of reader.now) scope.now scope.now found (stmt_by (source_of reader.now) (within (source_of reader.now) depth) scope.now first breaking)) }
{
    match reader.behind(scope, next, Symbol::Semicolon) {
        Some(after) => break_at(reader.alloc, first, after),
        None => Ok(None),
    }
}

/// `continue` and `;` (6.8.6.2).
pub(crate) fn continue_statement(
    reader: &Reader,
    scope: &Scope,
    first: u32,
    next: u32,
) -> Result<Option<Part<Boxed<Stmt>>>, Memory>
    requires { next ≡ first + 1 }
    ensures { (depth : ℕ) → IfOk result (λ found. Gives (a_stmt (source_of reader.now)) (source_of reader.now) scope.now scope.now found (stmt_by (source_of reader.now) (within (source_of reader.now) depth) scope.now first continuing)) }
{
    match reader.behind(scope, next, Symbol::Semicolon) {
        Some(after) => continue_at(reader.alloc, first, after),
        None => Ok(None),
    }
}
