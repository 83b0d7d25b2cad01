//! Initialisers (6.7.9), read from left to right.

ghost use Rattle.std.specs.Prelude.{◌≡◌, ◌+◌, ℕ, List, Option, IfOk, map, option_map};
ghost use Rattle.dm_syn.specs.declared.declared.Declared.{Declared};
ghost use Rattle.dm_syn.specs.Sources.{Source};
ghost use Rattle.dm_syn.specs.Trees as tree;
ghost use Rattle.dm_syn.specs.Views as view;
ghost use Rattle.dm_pexpr.specs.Parsing.{all_turns, and_then};
ghost use Rattle.dm_pexpr.specs.Parts.{source_of, Gives, IsPart, an_expr};
ghost use Rattle.dm_pstmt.specs.Kinds.{an_initialiser, initialisers_from};
ghost use Rattle.dm_pstmt.specs.Parsing.{initialiser_of, braces_from, more_initialisers as meant_more, valued as meant_valued};
ghost use Rattle.dm_pstmt.specs.Steps.{with_row, braces_round};

use dm_pexpr::{Part, Reader, Scope, begun, checked, joined, over};
use dm_syn::{Expr, InitForm, Initialiser, Symbol};
use dm_token::{List, Memory, Span};

/// The initialiser at a position, if there is one whose parts nest no deeper. What it declares is in scope behind it.
#[cycle(initialisers)]
pub(crate) fn initialiser(
    reader: &Reader,
    scope: &mut Scope,
    at: u32,
    depth: u32,
) -> Result<Option<Part<Initialiser>>, Memory>
    ensures { IfOk result (λ found. Gives (an_initialiser (source_of reader.now)) (source_of reader.now) scope.old scope.new found (initialiser_of (source_of reader.now) depth scope.old at)) }
{
    if depth == 0 {
        return Ok(None);
    }
    match reader.behind(scope, at, Symbol::LeftBrace) {
        Some(next) => braces(reader, scope, at, next, depth - 1),
        None => {
            let value = reader.expr(scope, at, 1, depth)?;
            Ok(valued(at, value))
        }
    }
}

// Initialisers in braces, behind the opening one.
#[cycle(initialisers)]
fn braces(
    reader: &Reader,
    scope: &mut Scope,
    first: u32,
    next: u32,
    depth: u32,
) -> Result<Option<Part<Initialiser>>, Memory>
    requires { next ≡ first + 1 }
    ensures { IfOk result (λ found. Gives (an_initialiser (source_of reader.now)) (source_of reader.now) scope.old scope.new found
        (and_then (braces_from (source_of reader.now) (initialiser_of (source_of reader.now) depth) scope.old first) (initialiser_of (source_of reader.now) depth scope.old (first + 1)))) }
{
    let Some(item) = initialiser(reader, scope, next, depth)? else {
        return Ok(None);
    };
    let items = begun(reader.alloc, item)?;
    let items = more_initialisers(reader, scope, items, depth)?;
    Ok(braced(reader, scope, first, items))
}

// More initialisers, each behind a comma that no closing brace follows.
#[cycle(initialisers)]
fn more_initialisers(
    reader: &Reader,
    scope: &mut Scope,
    items: Part<List<Initialiser>>,
    depth: u32,
) -> Result<Option<Part<List<Initialiser>>>, Memory>
    ensures { (before : List Declared) (start : ℕ) (read : Option tree.Initialisers) → IsPart (initialisers_from (source_of reader.now) start) (source_of reader.now) before scope.old items read
        → IfOk result (λ found. Gives (initialisers_from (source_of reader.now) start) (source_of reader.now) before scope.new found
        (with_row tree.more_initialisers (map view.initialiser items.tree) (meant_more (source_of reader.now) (initialiser_of (source_of reader.now) depth) (all_turns (source_of reader.now)) scope.old items.after))) }
{
    let mut items = items;
    let mut turns = reader.tokens.len() + 1;
    while turns > 0 {
        let Some(next) = reader.behind_separator(scope, items.after) else {
            return Ok(Some(items));
        };
        let Some(item) = initialiser(reader, scope, next, depth)? else {
            return Ok(None);
        };
        items = joined(items, item)?;
        turns -= 1;
    }
    Ok(Some(items))
}

// An expression as an initialiser.
fn valued(first: u32, value: Option<Part<Expr>>) -> Option<Part<Initialiser>>
    ensures { (source : Source) (before behind : List Declared) (wanted : Option tree.Expr) → Gives (an_expr source) source before behind value wanted
        → Gives (an_initialiser source) source before behind result (option_map (meant_valued first) wanted) }
{
    let value = value?;
    let after = value.after;
    let tree = Initialiser {
        span: Span { first, after },
        form: InitForm::Value(value.tree),
    };
    Some(Part {
        tree,
        height: value.height,
        after,
    })
}

// `{`, initialisers, and `}` with a comma before it or without.
fn braced(
    reader: &Reader,
    scope: &Scope,
    first: u32,
    items: Option<Part<List<Initialiser>>>,
) -> Option<Part<Initialiser>>
    ensures { (before : List Declared) (start : ℕ) (wanted : Option tree.Initialisers) → Gives (initialisers_from (source_of reader.now) start) (source_of reader.now) before scope.now items wanted
        → Gives (an_initialiser (source_of reader.now)) (source_of reader.now) before scope.now result (and_then (braces_round (source_of reader.now) scope.now first start) wanted) }
{
    let items = items?;
    let comma = reader.behind(scope, items.after, Symbol::Comma);
    let behind = comma.unwrap_or(items.after);
    let after = reader.behind(scope, behind, Symbol::RightBrace)?;
    let form = InitForm::Braces {
        items: items.tree,
        trailing: comma.is_some(),
    };
    let tree = Initialiser {
        span: Span { first, after },
        form,
    };
    checked(tree, over(items.height), after)
}
