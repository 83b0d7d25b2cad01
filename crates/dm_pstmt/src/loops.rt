//! What stands round the bodies of loops (6.8.5).

ghost use Rattle.std.specs.Prelude.{◌≡◌, ◌<◌, ◌+◌, ℕ, List, Option, IfOk, length, option_map};
ghost use Rattle.dm_syn.specs.declared.declared.Declared.{Declared};
ghost use Rattle.dm_syn.specs.declared.symbol.Symbol.TheVariants.{Semicolon, RightParen};
ghost use Rattle.dm_syn.specs.Trees as tree;
ghost use Rattle.dm_syn.specs.Views as view;
ghost use Rattle.dm_pexpr.specs.Parsing.{lower, and_then};
ghost use Rattle.dm_pexpr.specs.Parts.{source_of, Gives, IsPart};
ghost use Rattle.dm_pstmt.specs.Kinds.{a_stmt, a_start, an_optional, clauses_from};
ghost use Rattle.dm_pstmt.specs.Parsing.{within, do_with, start_of};
ghost use Rattle.dm_pstmt.specs.Steps.{clause_of, with_step, behind_condition, clauses_of};

use crate::clauses::{clause, enclosed};
use crate::declaration::declaration;
use crate::nodes::{ForClauses, boxed_start, clauses_node, declaring, do_loop, evaluated};
use dm_pexpr::{Part, Reader, Scope};
use dm_syn::{Expr, ForStart, Stmt, Symbol};
use dm_token::{Boxed, Memory};

/// `while`, a condition and `;` behind the body of a `do`.
pub(crate) fn repeated(
    reader: &Reader,
    scope: &mut Scope,
    first: u32,
    body: Part<Boxed<Stmt>>,
    depth: u32,
) -> Result<Option<Part<Boxed<Stmt>>>, Memory>
    ensures { (behind : List Declared) (seen : Option tree.Stmt) → IsPart (a_stmt (source_of reader.now)) (source_of reader.now) scope.old behind body seen
        → IfOk result (λ found. Gives (a_stmt (source_of reader.now)) (source_of reader.now) scope.old scope.new found (do_with (source_of reader.now) (within (source_of reader.now) depth) scope.old first (view.stmt body.tree))) }
{
    let Some(next) = reader.behind(scope, body.after, Symbol::While) else {
        return Ok(None);
    };
    let kept = scope.len();
    let Some(condition) = enclosed(reader, scope, next, depth)? else {
        return Ok(None);
    };
    let Some(after) = reader.behind(scope, condition.after + 1, Symbol::Semicolon) else {
        return Ok(None);
    };
    scope.end(kept)?;
    do_loop(reader.alloc, first, body, condition, after)
}

// The first clause of a `for`, with its semicolon.
fn for_start(
    reader: &Reader,
    scope: &mut Scope,
    at: u32,
    depth: u32,
) -> Result<Option<Part<ForStart>>, Memory>
    ensures { IfOk result (λ found. Gives (a_start (source_of reader.now) at) (source_of reader.now) scope.old scope.new found (start_of (source_of reader.now) (within (source_of reader.now) depth) scope.old at)) }
{
    if reader.symbol(scope, at).begins_specifiers() {
        let declaration = declaration(reader, scope, at, depth)?;
        return Ok(declaring(declaration));
    }
    let Some(value) = clause(reader, scope, at, Symbol::Semicolon, depth)? else {
        return Ok(None);
    };
    let after = value.after + 1;
    Ok(Some(evaluated(value, after)))
}

/// The clauses of a `for`, up to the `)`, behind which they end.
pub(crate) fn for_clauses(
    reader: &Reader,
    scope: &mut Scope,
    at: u32,
    depth: u32,
) -> Result<Option<Part<Boxed<ForClauses>>>, Memory>
    ensures { IfOk result (λ found. Gives (clauses_from (source_of reader.now) at) (source_of reader.now) scope.old scope.new found (clauses_of (source_of reader.now) (within (source_of reader.now) depth) scope.old at)) }
{
    let Some(start) = for_start(reader, scope, at, depth)? else {
        return Ok(None);
    };
    let start = boxed_start(reader.alloc, start)?;
    second_clause(reader, scope, start, depth)
}

// The second clause of a `for` and what stands behind it.
fn second_clause(
    reader: &Reader,
    scope: &mut Scope,
    start: Part<Boxed<ForStart>>,
    depth: u32,
) -> Result<Option<Part<Boxed<ForClauses>>>, Memory>
    ensures { (before : List Declared) (at : ℕ) (begun : Option tree.ForStart) → IsPart (a_start (source_of reader.now) at) (source_of reader.now) before scope.old start begun
        → IfOk result (λ found. Gives (clauses_from (source_of reader.now) at) (source_of reader.now) before scope.new found
        (and_then (behind_condition (source_of reader.now) (within (source_of reader.now) depth) scope.old (view.start start.tree) start.after)
        (clause_of (source_of reader.now) (lower (source_of reader.now) depth) Semicolon scope.old start.after))) }
{
    let Some(condition) = clause(reader, scope, start.after, Symbol::Semicolon, depth)? else {
        return Ok(None);
    };
    third_clause(reader, scope, start, condition, depth)
}

// The third clause of a `for`, with the `)`.
fn third_clause(
    reader: &Reader,
    scope: &mut Scope,
    start: Part<Boxed<ForStart>>,
    condition: Part<Option<Expr>>,
    depth: u32,
) -> Result<Option<Part<Boxed<ForClauses>>>, Memory>
    requires { condition.after < length reader.now.tokens.now }
    ensures { (before one : List Declared) (at : ℕ) (begun : Option tree.ForStart) (tested : Option (Option tree.Expr)) → IsPart (a_start (source_of reader.now) at) (source_of reader.now) before one start begun
        → IsPart (an_optional (source_of reader.now) start.after) (source_of reader.now) one scope.old condition tested
        → IfOk result (λ found. Gives (clauses_from (source_of reader.now) at) (source_of reader.now) before scope.new found
        (option_map (with_step (view.start start.tree) (view.optional condition.tree)) (clause_of (source_of reader.now) (lower (source_of reader.now) depth) RightParen scope.old (condition.after + 1)))) }
{
    let next = condition.after + 1;
    let Some(step) = clause(reader, scope, next, Symbol::RightParen, depth)? else {
        return Ok(None);
    };
    let after = step.after + 1;
    Ok(Some(clauses_node(reader.alloc, start, condition, step, after)?))
}
