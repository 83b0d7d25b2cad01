//! Whole expressions and type names.

ghost use Rattle.std.specs.Prelude.{◌≡◌, ◌≤◌, [], length, IfOk, IfSome, MatchOption};
ghost use Rattle.dm_syn.specs.Trees as tree;
ghost use Rattle.dm_syn.specs.Views as view;
ghost use Rattle.dm_pexpr.specs.Answers.{source_with, IsExpressionFound, IsNameFound};
ghost use Rattle.dm_pexpr.specs.Readings.{IsExpression, IsClosedName, closes_expression as meant_expression, closes_type_name as meant_name};

use crate::names::Names;
use crate::reader::Reader;
use crate::scope::Scope;
use dm_syn::{Expr, Symbol, TypeName};
use dm_token::{CToken, GREATEST_HEIGHT, Memory};
use std::alloc::Global;

/// The expression that begins at a position, with a height of at most [`GREATEST_HEIGHT`], where one of `) ] } : ;` or the
/// end of the tokens follows it, and the position behind it. None exactly where there is none.
pub fn expression(
    alloc: Global,
    tokens: &[CToken],
    at: u32,
    typedefs: &Names,
) -> Result<Option<(Expr, u32)>, Memory>
    requires few { length tokens.now ≤ 4294967295 }
    requires within { at ≤ length tokens.now }
    ensures found { IfOk result (λ found. IfSome found (IsExpressionFound (source_with tokens.now typedefs.now) at)) }
    ensures only { IfOk result (λ found. (it : tree.Expr) → IsExpression (source_with tokens.now typedefs.now) [] at it → MatchOption found ⊥ (λ pair. view.expr pair.0 ≡ it)) }
{
    let reader = Reader {
        alloc,
        tokens,
        typedefs,
    };
    let mut scope = Scope::new(alloc);
    let Some(expr) = reader.expr(&mut scope, at, 0, GREATEST_HEIGHT)? else {
        return Ok(None);
    };
    if closes_expression(reader.symbol(&scope, expr.after)) {
        Ok(Some((expr.tree, expr.after)))
    } else {
        Ok(None)
    }
}

/// The type name that begins at a position, with a height of at most [`GREATEST_HEIGHT`], where `)` or the end of the
/// tokens follows it, and the position behind it. None exactly where there is none.
pub fn type_name(
    alloc: Global,
    tokens: &[CToken],
    at: u32,
    typedefs: &Names,
) -> Result<Option<(TypeName, u32)>, Memory>
    requires few { length tokens.now ≤ 4294967295 }
    requires within { at ≤ length tokens.now }
    ensures found { IfOk result (λ found. IfSome found (IsNameFound (source_with tokens.now typedefs.now) at)) }
    ensures only { IfOk result (λ found. (it : tree.TypeName) → IsClosedName (source_with tokens.now typedefs.now) [] at it → MatchOption found ⊥ (λ pair. view.type_name pair.0 ≡ it)) }
{
    let reader = Reader {
        alloc,
        tokens,
        typedefs,
    };
    let mut scope = Scope::new(alloc);
    let Some(name) = reader.type_name(&mut scope, at, GREATEST_HEIGHT)? else {
        return Ok(None);
    };
    if name.height <= GREATEST_HEIGHT && closes_type_name(reader.symbol(&scope, name.after)) {
        Ok(Some((name.tree, name.after)))
    } else {
        Ok(None)
    }
}

// Whether a symbol may follow a whole expression.
fn closes_expression(next: Symbol) -> bool
    ensures { result ≡ meant_expression next }
{
    matches!(
        next,
        Symbol::RightParen
            | Symbol::RightBracket
            | Symbol::RightBrace
            | Symbol::Colon
            | Symbol::Semicolon
            | Symbol::End
    )
}

// Whether a symbol may follow a whole type name.
fn closes_type_name(next: Symbol) -> bool
    ensures { result ≡ meant_name next }
{
    matches!(next, Symbol::RightParen | Symbol::End)
}
