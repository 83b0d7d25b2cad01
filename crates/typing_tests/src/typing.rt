//! What the tests ask of `elaborate_expr`.

use crate::scene::{Scene, full_scene, plain_scene, typedefs_of};
use crate::showing::show;
use dm_eexpr::elaborate_expr;
use dm_pexpr::expression;
use dm_syn::Expr;
use dm_token::refusals::TYPING;
use dm_token::{Boxed, CToken, List, Stop};
use dm_tree::Core;
use std::alloc::Global;
use std::fmt::Write;
use std::test::Fail;
use test_words::tokens_of;

/// The expression that tokens are.
pub fn expression_of(alloc: Global, tokens: &List<CToken>) -> Result<Option<Boxed<Expr>>, Fail> {
    let typedefs = typedefs_of(alloc)?;
    if tokens.len() > u32::MAX as usize {
        return Ok(None);
    }
    match expression(alloc, tokens.items(), 0, &typedefs)? {
        Some((expr, after)) if after as usize == tokens.len() => {
            Ok(Some(Boxed::new(alloc, expr)?))
        }
        _ => Ok(None),
    }
}

/// The typed tree of an expression. After an `Err` the scene isn't to be used again.
pub fn tree_of(
    alloc: Global,
    scene: &mut Scene,
    tokens: &[CToken],
    expr: &Expr,
) -> Result<Boxed<Core>, Stop> {
    let core = elaborate_expr(
        alloc,
        &mut scene.types,
        &mut scene.scopes,
        &mut scene.declared,
        tokens,
        expr,
    )?;
    Ok(Boxed::new(alloc, core)?)
}

/// Why an expression is refused: the rule, and the column of its place.
fn refused(alloc: Global, stop: Stop) -> Result<String, Fail> {
    let mut out = String::new(alloc);
    match stop {
        Stop::Refused(refusal) if refusal.number == TYPING => {
            write!(out, "C{} at {}", refusal.detail, refusal.place.column)?;
        }
        _ => out.push_str("stopped")?,
    }
    Ok(out)
}

/// What typing makes of the expression that words are: its typed tree, or why it is refused, after which the scene isn't
/// to be used again. Empty where the words are no expression.
fn typed(alloc: Global, scene: &mut Scene, words: &str, spans: bool) -> Result<String, Fail> {
    let tokens = tokens_of(alloc, words)?;
    let Some(expr) = expression_of(alloc, &tokens)? else {
        return Ok(String::new(alloc));
    };
    match tree_of(alloc, scene, tokens.items(), expr.get()) {
        Ok(core) => show(alloc, scene, spans, core.get()),
        Err(stop) => refused(alloc, stop),
    }
}

/// What typing makes of the expression of a row, where the row says something else.
fn other(alloc: Global, scene: &mut Scene, row: &str, spans: bool) -> Result<Option<String>, Fail> {
    let (words, wanted) = row.split_once(" => ").ok_or("no result")?;
    let line = typed(alloc, scene, words, spans)?;
    if line.as_str() == wanted {
        return Ok(None);
    }
    Ok(Some(format!(in alloc; "{words} => {line}")?))
}

/// Of rows with an expression and its typed tree, the first whose expression has another, and that one. Empty where
/// there is none.
pub fn first_other(alloc: Global, rows: &str, spans: bool) -> Result<String, Fail> {
    let mut scene = full_scene(alloc)?;
    for row in rows.lines() {
        if let Some(line) = other(alloc, &mut scene, row, spans)? {
            return Ok(line);
        }
    }
    Ok(String::new(alloc))
}

/// The same in a scene that is as at first, and without the words of types.
fn other_anew(alloc: Global, row: &str) -> Result<Option<String>, Fail> {
    let mut scene = plain_scene(alloc)?;
    other(alloc, &mut scene, row, false)
}

/// Of rows with an expression and why it is refused, the first that isn't refused so, and what it comes to. Empty where
/// there is none.
pub fn first_not_refused(alloc: Global, rows: &str) -> Result<String, Fail> {
    for row in rows.lines() {
        if let Some(line) = other_anew(alloc, row)? {
            return Ok(line);
        }
    }
    Ok(String::new(alloc))
}
