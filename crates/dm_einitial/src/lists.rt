//! Initialisers by their syntax: expressions, and lists in braces (6.7.9).

ghost use Rattle.std.specs.Prelude.{◌≡◌, ◌<◌, length, map, drop, option_map};
ghost use Rattle.dm_token.specs.declared.place.Span.{Span as OneSpan};
ghost use Rattle.dm_type.specs.Tables.{IsId};
ghost use Rattle.dm_syn.specs.Trees as tree;
ghost use Rattle.dm_syn.specs.Views as syntax;
ghost use Rattle.dm_tree.specs.Scenes.{part_type};
ghost use Rattle.dm_typing.specs.Views.{type_over, known_over, source_of, setting_of};
ghost use Rattle.dm_edeclarator.specs.Steps.{Anything, Follows};
ghost use Rattle.dm_edecl.specs.Initialising as initialising;
ghost use Rattle.dm_einitial.specs.Steps as steps;
ghost use Rattle.dm_einitial.specs.Steps.{initial_over, initials_over, InitialFits, InitialsFit, nothing_over, dropped};

use crate::lengths::is_zero_token;
use crate::parts::{first_scalar, part};
use crate::scalars::{initialised_by, scalar_by, zero_initialised};
use dm_eexpr::expressions::typed;
use dm_syn::{Expr, InitForm, Initialiser};
use dm_token::{List, Span, Stop};
use dm_tree::Initial;
use dm_type::TypeId;
use dm_typing::looks::is_scalar;
use dm_typing::{Known, Typer};

/// The expressions of an initialiser that initialises nothing. Each is typed, and its tree dropped.
#[cycle(alone)]
pub fn expressions_alone(
    typer: &Typer<'_>,
    known: &mut Known,
    initialiser: &Initialiser,
) -> Result<(), Stop>
    ensures { Follows Anything nothing_over (source_of typer.now) known.old known.new result (λ later. dropped (initialising.expressions_alone (setting_of typer.now) (known_over later known.old) (syntax.initialiser initialiser.now))) }
{
    match &initialiser.form {
        InitForm::Value(expr) => expression_alone(typer, known, expr),
        InitForm::Braces { items, .. } => all_expressions_alone(typer, known, items.items()),
    }
}

/// One expression.
fn expression_alone(typer: &Typer<'_>, known: &mut Known, expr: &Expr) -> Result<(), Stop>
    ensures { (at : OneSpan) → Follows Anything nothing_over (source_of typer.now) known.old known.new result (λ later. dropped (initialising.expressions_alone (setting_of typer.now) (known_over later known.old) (tree.value at (syntax.expr expr.now)))) }
{
    let made = typed(typer, known, true, expr)?;
    drop(made);
    Ok(())
}

/// Those of the items of a list.
#[cycle(alone)]
fn all_expressions_alone(
    typer: &Typer<'_>,
    known: &mut Known,
    items: &[Initialiser],
) -> Result<(), Stop>
    ensures { Follows Anything nothing_over (source_of typer.now) known.old known.new result (λ later. dropped (initialising.all_expressions_alone (setting_of typer.now) (known_over later known.old) (syntax.initialisers (map syntax.initialiser items.now)))) }
{
    for item in items {
        expressions_alone(typer, known, item)?;
    }
    Ok(())
}

/// A list that initialises nothing.
fn misplaced(
    typer: &Typer<'_>,
    known: &mut Known,
    span: Span,
    items: &[Initialiser],
) -> Result<Initial, Stop>
    ensures { Follows InitialFits initial_over (source_of typer.now) known.old known.new result (λ later. initialising.misplaced (setting_of typer.now) (known_over later known.old) span (syntax.initialisers (map syntax.initialiser items.now))) }
{
    all_expressions_alone(typer, known, items)?;
    Err(typer.broken(8, span.first))
}

/// The one expression of a list that has nothing else, and its own tokens.
fn sole_value(items: &[Initialiser]) -> Option<(Span, &Expr)>
    ensures { option_map (λ found. (found.0, syntax.expr found.1.now)) result ≡ steps.sole_value (syntax.initialisers (map syntax.initialiser items.now)) }
{
    if items.len() != 1 {
        return None;
    }
    let only = &items[0];
    match &only.form {
        InitForm::Value(expr) => Some((only.span, expr)),
        InitForm::Braces { .. } => None,
    }
}

/// A scalar with an expression in braces (6.7.9p11).
fn scalar_in_braces(
    typer: &Typer<'_>,
    known: &mut Known,
    fixed: bool,
    kind: TypeId,
    span: Span,
    items: &[Initialiser],
) -> Result<Initial, Stop>
    requires { IsId known.old.types kind }
    ensures { Follows InitialFits initial_over (source_of typer.now) known.old known.new result (λ later. initialising.scalar_in_braces (setting_of typer.now) fixed (known_over later known.old) (type_over later kind) span (syntax.initialisers (map syntax.initialiser items.now))) }
{
    match sole_value(items) {
        Some((at, expr)) => {
            let made = typed(typer, known, true, expr)?;
            scalar_by(typer, known, fixed, kind, at.first, made)
        }
        None => misplaced(typer, known, span, items),
    }
}

/// Whether the list is `{0}`.
fn is_zero_list(typer: &Typer<'_>, items: &[Initialiser], trailing: bool) -> bool
    ensures { result ≡ initialising.is_zero_list (setting_of typer.now) (syntax.initialisers (map syntax.initialiser items.now)) trailing }
{
    if trailing {
        return false;
    }
    match sole_value(items) {
        Some((_, expr)) => is_zero_token(typer, expr),
        None => false,
    }
}

/// `{0}` for an array or a struct.
fn all_zero(
    typer: &Typer<'_>,
    known: &mut Known,
    fixed: bool,
    kind: TypeId,
    span: Span,
    items: &[Initialiser],
) -> Result<Initial, Stop>
    requires { IsId known.old.types kind }
    ensures { Follows InitialFits initial_over (source_of typer.now) known.old known.new result (λ later. initialising.all_zero (setting_of typer.now) fixed (known_over later known.old) (type_over later kind) span (syntax.initialisers (map syntax.initialiser items.now))) }
{
    match sole_value(items) {
        Some((at, expr)) => zero_for(typer, known, fixed, kind, span, at, expr),
        None => misplaced(typer, known, span, items),
    }
}

/// The 0 for the scalar that stands first. That is looked for among the types that are known before it.
fn zero_for(
    typer: &Typer<'_>,
    known: &mut Known,
    fixed: bool,
    kind: TypeId,
    span: Span,
    at: Span,
    expr: &Expr,
) -> Result<Initial, Stop>
    requires { IsId known.old.types kind }
    ensures { Follows InitialFits initial_over (source_of typer.now) known.old known.new result (λ later. steps.zero_for (setting_of typer.now) fixed (known_over later known.old) (type_over later kind) span at (syntax.expr expr.now)) }
{
    let found = first_scalar(known, kind)?;
    let made = typed(typer, known, true, expr)?;
    match found {
        Some(first) => zero_initialised(typer, known, fixed, first, at.first, made),
        None => Err(typer.broken(8, span.first)),
    }
}

/// What initialises an object of a type, with static storage or without.
#[cycle(initialising)]
pub fn typed_initialiser(
    typer: &Typer<'_>,
    known: &mut Known,
    fixed: bool,
    kind: TypeId,
    initialiser: &Initialiser,
) -> Result<Initial, Stop>
    requires { IsId known.old.types kind }
    ensures { Follows InitialFits initial_over (source_of typer.now) known.old known.new result (λ later. initialising.typed_initialiser (setting_of typer.now) fixed (known_over later known.old) (type_over later kind) (syntax.initialiser initialiser.now)) }
{
    match &initialiser.form {
        InitForm::Value(expr) => one_value(typer, known, fixed, kind, initialiser.span, expr),
        InitForm::Braces { items, trailing } => {
            in_braces(
                typer,
                known,
                fixed,
                kind,
                initialiser.span,
                items.items(),
                *trailing,
            )
        }
    }
}

/// One expression.
fn one_value(
    typer: &Typer<'_>,
    known: &mut Known,
    fixed: bool,
    kind: TypeId,
    span: Span,
    expr: &Expr,
) -> Result<Initial, Stop>
    requires { IsId known.old.types kind }
    ensures { Follows InitialFits initial_over (source_of typer.now) known.old known.new result (λ later. initialising.typed_initialiser (setting_of typer.now) fixed (known_over later known.old) (type_over later kind) (tree.value span (syntax.expr expr.now))) }
{
    let made = typed(typer, known, true, expr)?;
    initialised_by(typer, known, fixed, kind, span.first, expr, made)
}

/// A list in braces.
#[cycle(initialising)]
fn in_braces(
    typer: &Typer<'_>,
    known: &mut Known,
    fixed: bool,
    kind: TypeId,
    span: Span,
    items: &[Initialiser],
    trailing: bool,
) -> Result<Initial, Stop>
    requires { IsId known.old.types kind }
    ensures { Follows InitialFits initial_over (source_of typer.now) known.old known.new result (λ later. initialising.typed_initialiser (setting_of typer.now) fixed (known_over later known.old) (type_over later kind) (tree.braces span (syntax.initialisers (map syntax.initialiser items.now)) trailing)) }
{
    if is_scalar(&known.types, kind) {
        return scalar_in_braces(typer, known, fixed, kind, span, items);
    }
    if is_zero_list(typer, items, trailing) {
        return all_zero(typer, known, fixed, kind, span, items);
    }
    let parts = typed_initialisers(typer, known, fixed, kind, span, items)?;
    Ok(Initial::Parts(parts))
}

/// The items of a list, each for a part of the object. There are no more than the array or the struct has parts
/// (6.7.9p2).
#[cycle(initialising)]
fn typed_initialisers(
    typer: &Typer<'_>,
    known: &mut Known,
    fixed: bool,
    kind: TypeId,
    span: Span,
    items: &[Initialiser],
) -> Result<List<Initial>, Stop>
    requires { IsId known.old.types kind }
    ensures { Follows InitialsFit initials_over (source_of typer.now) known.old known.new result (λ later. initialising.typed_initialisers (setting_of typer.now) fixed (known_over later known.old) (type_over later kind) span 0 (syntax.initialisers (map syntax.initialiser items.now))) }
{
    let mut parts = List::new(typer.alloc);
    for item in items {
        let made = typed_item(typer, known, fixed, kind, span, items, parts.len(), item)?;
        parts.push(made)?;
    }
    Ok(parts)
}

/// The item of a list that has the number, for the part that has it.
#[cycle(initialising)]
fn typed_item(
    typer: &Typer<'_>,
    known: &mut Known,
    fixed: bool,
    kind: TypeId,
    span: Span,
    items: &[Initialiser],
    n: usize,
    item: &Initialiser,
) -> Result<Initial, Stop>
    requires kind { IsId known.old.types kind }
    requires number { n < length items.now }
    ensures { Follows InitialFits initial_over (source_of typer.now) known.old known.new result (λ later. steps.typed_item (setting_of typer.now) fixed (known_over later known.old) (part_type (known_over later known.old).types (type_over later kind) n) span (syntax.initialiser item.now) (syntax.initialisers (map syntax.initialiser (drop n items.now)))) }
{
    let found = part(known, kind, n)?;
    match found {
        Some(inner) => typed_initialiser(typer, known, fixed, inner, item),
        None => misplaced(typer, known, span, items_from(items, n)),
    }
}

/// The items from a number on.
fn items_from(items: &[Initialiser], n: usize) -> &[Initialiser]
    requires { n < length items.now }
    ensures { result.now ≡ drop n items.now }
{
    items.split_at(n).1
}
