//! Statements (6.8), read from left to right.

ghost use Rattle.std.specs.Prelude.{◌≡◌, ◌<◌, ◌≤◌, ◌+◌, List, Option, IfOk, IfSome, length};
ghost use Rattle.dm_syn.specs.declared.declared.Declared.{Declared};
ghost use Rattle.dm_syn.specs.Trees as tree;
ghost use Rattle.dm_syn.specs.Views as view;
ghost use Rattle.dm_pexpr.specs.Parsing.{all_turns, and_then};
ghost use Rattle.dm_pexpr.specs.Parts.{source_of, Gives, IsPart, an_expr};
ghost use Rattle.dm_pstmt.specs.Kinds.{a_stmt, a_labelled, a_block_item, block_items_from, switch_items_from};
ghost use Rattle.dm_pstmt.specs.Parsing.{within, stmt_by, opening, choosing, switching, repeating, doing, looping, block_items as meant_items, block_item_of, if_behind, switch_items as meant_labelled, case_with};
ghost use Rattle.dm_pstmt.specs.Steps.{default_from};

use crate::clauses::{
    break_statement, continue_statement, enclosed, expression_statement, return_statement,
};
use crate::declaration::declaration;
use crate::loops::{for_clauses, repeated};
use crate::nodes::{
    block as block_node, case_of, declared_item, default_of, for_loop, if_alone, if_else,
    stated_item, switch_on, unlabelled, while_loop,
};
use dm_pexpr::{Part, Reader, Scope, joined};
use dm_syn::{Expr, Item, Stmt, SwitchItem, Symbol};
use dm_token::{Boxed, List, Memory};

/// The statement at a position, if there is one whose parts nest no deeper. What it declares is in scope behind it.
#[cycle(statements)]
pub(crate) fn statement(
    reader: &Reader,
    scope: &mut Scope,
    at: u32,
    depth: u32,
) -> Result<Option<Part<Boxed<Stmt>>>, Memory>
    ensures { IfOk result (λ found. Gives (a_stmt (source_of reader.now)) (source_of reader.now) scope.old scope.new found ((within (source_of reader.now) depth).stmt scope.old at)) }
{
    if depth == 0 {
        return Ok(None);
    }
    let depth = depth - 1;
    match reader.symbol(scope, at) {
        Symbol::LeftBrace => block(reader, scope, at, at + 1, depth),
        Symbol::If => choice(reader, scope, at, at + 1, depth),
        Symbol::Switch => switch(reader, scope, at, at + 1, depth),
        Symbol::While => while_statement(reader, scope, at, at + 1, depth),
        Symbol::Do => do_statement(reader, scope, at, at + 1, depth),
        Symbol::For => for_statement(reader, scope, at, at + 1, depth),
        Symbol::Break => break_statement(reader, scope, at, at + 1),
        Symbol::Continue => continue_statement(reader, scope, at, at + 1),
        Symbol::Return => return_statement(reader, scope, at, at + 1, depth),
        _ => expression_statement(reader, scope, at, depth),
    }
}

// A block, behind its opening brace. The scope of what it declares ends with it.
#[cycle(statements)]
fn block(
    reader: &Reader,
    scope: &mut Scope,
    first: u32,
    next: u32,
    depth: u32,
) -> Result<Option<Part<Boxed<Stmt>>>, Memory>
    requires next { next ≡ first + 1 }
    requires inside { next ≤ length reader.now.tokens.now }
    ensures { IfOk result (λ found. Gives (a_stmt (source_of reader.now)) (source_of reader.now) scope.old scope.new found (stmt_by (source_of reader.now) (within (source_of reader.now) depth) scope.old first opening)) }
{
    let outer = scope.len();
    let Some(items) = block_items(reader, scope, next, depth)? else {
        return Ok(None);
    };
    scope.end(outer)?;
    let after = items.after + 1;
    block_node(reader.alloc, first, items, after)
}

// The items of a block, up to the closing brace.
#[cycle(statements)]
fn block_items(
    reader: &Reader,
    scope: &mut Scope,
    at: u32,
    depth: u32,
) -> Result<Option<Part<List<Item>>>, Memory>
    requires { at ≤ length reader.now.tokens.now }
    ensures read { IfOk result (λ found. Gives (block_items_from (source_of reader.now) at) (source_of reader.now) scope.old scope.new found (meant_items (source_of reader.now) (within (source_of reader.now) depth) (all_turns (source_of reader.now)) scope.old at)) }
    ensures inside { IfOk result (λ found. IfSome found (λ items. items.after < length reader.now.tokens.now)) }
{
    let mut items = reader.none_yet(at);
    let mut turns = reader.tokens.len() + 1;
    while turns > 0 {
        if reader.symbol(scope, items.after).is(Symbol::RightBrace) {
            return Ok(Some(items));
        }
        let Some(item) = block_item(reader, scope, items.after, depth)? else {
            return Ok(None);
        };
        items = joined(items, item)?;
        turns -= 1;
    }
    Ok(None)
}

// A declaration or a statement.
#[cycle(statements)]
fn block_item(
    reader: &Reader,
    scope: &mut Scope,
    at: u32,
    depth: u32,
) -> Result<Option<Part<Item>>, Memory>
    ensures { IfOk result (λ found. Gives (a_block_item (source_of reader.now)) (source_of reader.now) scope.old scope.new found (block_item_of (source_of reader.now) (within (source_of reader.now) depth) scope.old at)) }
{
    if reader.symbol(scope, at).begins_specifiers() {
        let declaration = declaration(reader, scope, at, depth)?;
        Ok(declared_item(declaration))
    } else {
        let stmt = statement(reader, scope, at, depth)?;
        Ok(stated_item(stmt))
    }
}

// `if`, its condition and its branches.
#[cycle(statements)]
fn choice(
    reader: &Reader,
    scope: &mut Scope,
    first: u32,
    next: u32,
    depth: u32,
) -> Result<Option<Part<Boxed<Stmt>>>, Memory>
    requires { next ≡ first + 1 }
    ensures { IfOk result (λ found. Gives (a_stmt (source_of reader.now)) (source_of reader.now) scope.old scope.new found (stmt_by (source_of reader.now) (within (source_of reader.now) depth) scope.old first choosing)) }
{
    let kept = scope.len();
    let Some(condition) = enclosed(reader, scope, next, depth)? else {
        return Ok(None);
    };
    let inside = scope.len();
    let Some(body) = statement(reader, scope, condition.after + 1, depth)? else {
        return Ok(None);
    };
    scope.end(inside)?;
    otherwise(reader, scope, kept, first, condition, body, depth)
}

// What stands behind the first branch: `else` and a statement, or nothing.
#[cycle(statements)]
fn otherwise(
    reader: &Reader,
    scope: &mut Scope,
    kept: usize,
    first: u32,
    condition: Part<Expr>,
    body: Part<Boxed<Stmt>>,
    depth: u32,
) -> Result<Option<Part<Boxed<Stmt>>>, Memory>
    ensures { (before behind : List Declared) (read : Option tree.Expr) (seen : Option tree.Stmt) → kept ≡ length before
        → IsPart (an_expr (source_of reader.now)) (source_of reader.now) before scope.old condition read → IsPart (a_stmt (source_of reader.now)) (source_of reader.now) scope.old behind body seen
        → IfOk result (λ found. Gives (a_stmt (source_of reader.now)) (source_of reader.now) before scope.new found (if_behind (source_of reader.now) (within (source_of reader.now) depth) before first (view.expr condition.tree) (view.stmt body.tree))) }
{
    let Some(next) = reader.behind(scope, body.after, Symbol::Else) else {
        scope.end(kept)?;
        return if_alone(reader.alloc, first, condition, body);
    };
    let other = statement(reader, scope, next, depth)?;
    scope.end(kept)?;
    if_else(reader.alloc, first, condition, body, other)
}

// `switch`, its subject and what stands in its braces.
#[cycle(statements)]
fn switch(
    reader: &Reader,
    scope: &mut Scope,
    first: u32,
    next: u32,
    depth: u32,
) -> Result<Option<Part<Boxed<Stmt>>>, Memory>
    requires { next ≡ first + 1 }
    ensures { IfOk result (λ found. Gives (a_stmt (source_of reader.now)) (source_of reader.now) scope.old scope.new found (stmt_by (source_of reader.now) (within (source_of reader.now) depth) scope.old first switching)) }
{
    let kept = scope.len();
    let Some(subject) = enclosed(reader, scope, next, depth)? else {
        return Ok(None);
    };
    let Some(inside) = reader.behind(scope, subject.after + 1, Symbol::LeftBrace) else {
        return Ok(None);
    };
    let Some(items) = switch_items(reader, scope, inside, depth)? else {
        return Ok(None);
    };
    scope.end(kept)?;
    let after = items.after + 1;
    switch_on(reader.alloc, first, subject, items, after)
}

// What stands in the braces of a `switch`, up to the closing one.
#[cycle(statements)]
fn switch_items(
    reader: &Reader,
    scope: &mut Scope,
    at: u32,
    depth: u32,
) -> Result<Option<Part<List<SwitchItem>>>, Memory>
    requires { at ≤ length reader.now.tokens.now }
    ensures read { IfOk result (λ found. Gives (switch_items_from (source_of reader.now) at) (source_of reader.now) scope.old scope.new found (meant_labelled (source_of reader.now) (within (source_of reader.now) depth) (all_turns (source_of reader.now)) scope.old at)) }
    ensures inside { IfOk result (λ found. IfSome found (λ items. items.after < length reader.now.tokens.now)) }
{
    let mut items = reader.none_yet(at);
    let mut turns = reader.tokens.len() + 1;
    while turns > 0 {
        if reader.symbol(scope, items.after).is(Symbol::RightBrace) {
            return Ok(Some(items));
        }
        let Some(item) = labelled(reader, scope, items.after, depth)? else {
            return Ok(None);
        };
        items = joined(items, item)?;
        turns -= 1;
    }
    Ok(None)
}

/// A statement with its labels (6.8.1).
#[cycle(statements)]
fn labelled(
    reader: &Reader,
    scope: &mut Scope,
    at: u32,
    depth: u32,
) -> Result<Option<Part<SwitchItem>>, Memory>
    ensures { IfOk result (λ found. Gives (a_labelled (source_of reader.now)) (source_of reader.now) scope.old scope.new found ((within (source_of reader.now) depth).labelled scope.old at)) }
{
    if depth == 0 {
        return Ok(None);
    }
    match reader.symbol(scope, at) {
        Symbol::Case => case(reader, scope, at, at + 1, depth - 1),
        Symbol::Default => default(reader, scope, at, at + 1, depth - 1),
        _ => {
            let stmt = statement(reader, scope, at, depth)?;
            Ok(unlabelled(at, stmt))
        }
    }
}

// `case`, its label, `:` and what it labels.
#[cycle(statements)]
fn case(
    reader: &Reader,
    scope: &mut Scope,
    first: u32,
    next: u32,
    depth: u32,
) -> Result<Option<Part<SwitchItem>>, Memory>
    requires { next ≡ first + 1 }
    ensures { IfOk result (λ found. Gives (a_labelled (source_of reader.now)) (source_of reader.now) scope.old scope.new found (and_then (case_with (source_of reader.now) (within (source_of reader.now) depth) scope.old first) ((within (source_of reader.now) depth).parts.expr 2 scope.old (first + 1)))) }
{
    let Some(label) = reader.expr(scope, next, 2, depth)? else {
        return Ok(None);
    };
    let Some(next) = reader.behind(scope, label.after, Symbol::Colon) else {
        return Ok(None);
    };
    let item = labelled(reader, scope, next, depth)?;
    case_of(reader.alloc, first, label, item)
}

// `default`, `:` and what it labels.
#[cycle(statements)]
fn default(
    reader: &Reader,
    scope: &mut Scope,
    first: u32,
    next: u32,
    depth: u32,
) -> Result<Option<Part<SwitchItem>>, Memory>
    requires { next ≡ first + 1 }
    ensures { IfOk result (λ found. Gives (a_labelled (source_of reader.now)) (source_of reader.now) scope.old scope.new found (default_from (source_of reader.now) (within (source_of reader.now) depth) scope.old first)) }
{
    let Some(next) = reader.behind(scope, next, Symbol::Colon) else {
        return Ok(None);
    };
    let item = labelled(reader, scope, next, depth)?;
    default_of(reader.alloc, first, item)
}

// `while`, its condition and its body.
#[cycle(statements)]
fn while_statement(
    reader: &Reader,
    scope: &mut Scope,
    first: u32,
    next: u32,
    depth: u32,
) -> Result<Option<Part<Boxed<Stmt>>>, Memory>
    requires { next ≡ first + 1 }
    ensures { IfOk result (λ found. Gives (a_stmt (source_of reader.now)) (source_of reader.now) scope.old scope.new found (stmt_by (source_of reader.now) (within (source_of reader.now) depth) scope.old first repeating)) }
{
    let kept = scope.len();
    let Some(condition) = enclosed(reader, scope, next, depth)? else {
        return Ok(None);
    };
    let body = statement(reader, scope, condition.after + 1, depth)?;
    scope.end(kept)?;
    while_loop(reader.alloc, first, condition, body)
}

// `do`, its body and its condition.
#[cycle(statements)]
fn do_statement(
    reader: &Reader,
    scope: &mut Scope,
    first: u32,
    next: u32,
    depth: u32,
) -> Result<Option<Part<Boxed<Stmt>>>, Memory>
    requires { next ≡ first + 1 }
    ensures { IfOk result (λ found. Gives (a_stmt (source_of reader.now)) (source_of reader.now) scope.old scope.new found (stmt_by (source_of reader.now) (within (source_of reader.now) depth) scope.old first doing)) }
{
    let kept = scope.len();
    let Some(body) = statement(reader, scope, next, depth)? else {
        return Ok(None);
    };
    scope.end(kept)?;
    repeated(reader, scope, first, body, depth)
}

// `for`, its clauses and its body.
#[cycle(statements)]
fn for_statement(
    reader: &Reader,
    scope: &mut Scope,
    first: u32,
    next: u32,
    depth: u32,
) -> Result<Option<Part<Boxed<Stmt>>>, Memory>
    requires { next ≡ first + 1 }
    ensures { IfOk result (λ found. Gives (a_stmt (source_of reader.now)) (source_of reader.now) scope.old scope.new found (stmt_by (source_of reader.now) (within (source_of reader.now) depth) scope.old first looping)) }
{
    let kept = scope.len();
    let Some(inside) = reader.behind(scope, next, Symbol::LeftParen) else {
        return Ok(None);
    };
    let Some(clauses) = for_clauses(reader, scope, inside, depth)? else {
        return Ok(None);
    };
    let body = statement(reader, scope, clauses.after, depth)?;
    scope.end(kept)?;
    for_loop(reader.alloc, first, clauses, body)
}
