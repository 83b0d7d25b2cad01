//! Where the expressions of a unit stand.

ghost use Rattle.std.specs.Prelude.{◌≡◌, ◌+◌, ◌&&◌, ◌||◌, ◌++◌, ◌↔◌, [], Bool, IfOk, IsTrue, List, OnOk, map, flat_map};
ghost use Rattle.std.specs.List.{AllByRecursion, list_any};
ghost use Rattle.dm_token.specs.declared.place.Span.{Span as SeenSpan};
ghost use Rattle.dm_type.specs.Tables.{Table, no_type};
ghost use Rattle.dm_tree.specs.Initialisers.{is_same_span};
ghost use Rattle.dm_tree.specs.Paths.{nodes_in};
ghost use Rattle.dm_tree.specs.Trees.{label_of};
ghost use Rattle.dm_tree.specs.Units.{TypedUnit};
ghost use Rattle.dm_tree.specs.Views.{opened_form, view, view_of_external, view_of_form, view_of_unit};
ghost use Rattle.dm_effect.specs.Entities.{nodes_of_external, trees_in_external, trees_in_form};
ghost use Rattle.dm_agree.specs.Parts.{nows};
ghost use Rattle.dm_agree.specs.Standing.{narrowing, stands, widened};
ghost use Rattle.dm_align.specs.Places as seen;
ghost use Rattle.dm_align.specs.Places.{AreAdded, AreAddedBelow, AreKept, AreOccurrencesWanted, ArePlaces, AreWanted, IsRunWanted, has, is_unevaluated_below, is_unevaluated_in, is_wanted, nodes_left, stands_in, waits, waits_unevaluated};
ghost use Rattle.dm_align.specs.Units as units;
ghost use Rattle.dm_align.specs.Units.{IsOccurrencePlaced, IsPlaced};

use dm_agree::{is_marked, is_value, mark, operands_of, pairs, parts_of, push_locals};
use dm_runs::{Occurrence, Run};
use dm_token::{Memory, Span};
use dm_tree::{Core, CoreExternal, CoreExternalForm, CoreUnit, Form};
use std::alloc::Global;
use std::collections::HashSet;

/// The tokens of an expression with some of the pairs of parentheses round it.
#[derive(Clone, Copy, PartialEq, Eq, Hash)]
pub(crate) struct Extent {
    first: u32,
    after: u64,
}

/// The extents of the expressions of a unit, and of those in operands of `sizeof`, as far as they are looked for.
#[derive(Drop)]
pub(crate) struct Places {
    all: HashSet<Extent>,
    unevaluated: HashSet<Extent>,
}

/// A tree that waits for the walk, and whether it stands in an operand of `sizeof`.
#[derive(Clone, Copy)]
pub(crate) struct Waiting<'a> {
    tree: &'a Core,
    unevaluated: bool,
}

/// Whether runs are expressions of a unit, and so are the occurrences in them, outside operands of `sizeof`.
pub(crate) fn are_placed(alloc: Global, unit: &CoreUnit, runs: &[Run]) -> Result<bool, Memory>
    ensures { IfOk result (λ answer. (types : Table) → IsTrue answer ↔ AllByRecursion (IsPlaced (view_of_unit types unit.now)) runs.now) }
{
    if runs.is_empty() {
        return Ok(true);
    }
    let starts = starts_of(alloc, runs)?;
    let places = places_of(alloc, unit, &starts)?;
    Ok(have_all(&places, runs))
}

/// Of each token, whether a run or an occurrence in one begins with it.
fn starts_of(alloc: Global, runs: &[Run]) -> Result<Vec<bool>, Memory>
    ensures { IfOk result (λ starts. AreWanted starts.items runs.now) }
{
    let mut starts = Vec::new(alloc);
    let mut left = runs;
    while let Some((first, rest)) = left.split_first() {
        mark_run(first, &mut starts)?;
        left = rest;
    }
    Ok(starts)
}

/// Marks the tokens with which a run begins, and the occurrences in it.
fn mark_run(run: &Run, starts: &mut Vec<bool>) -> Result<(), Memory>
    ensures marked { OnOk result ((later : List Bool) → AreKept starts.new.items later → IsRunWanted later run.now) }
    ensures kept { OnOk result (AreKept starts.old.items starts.new.items) }
{
    mark(starts, run.span.first)?;
    mark_occurrences(run.occurrences.items(), starts)?;
    Ok(())
}

fn mark_occurrences(occurrences: &[Occurrence], starts: &mut Vec<bool>) -> Result<(), Memory>
    ensures marked { OnOk result ((later : List Bool) → AreKept starts.new.items later → AreOccurrencesWanted later occurrences.now) }
    ensures kept { OnOk result (AreKept starts.old.items starts.new.items) }
{
    let mut left = occurrences;
    while let Some((first, rest)) = left.split_first() {
        mark(starts, first.span.first)?;
        left = rest;
    }
    Ok(())
}

fn have_all(places: &Places, runs: &[Run]) -> bool
    ensures { (one : TypedUnit) (starts : List Bool) → ArePlaces one starts places.now → AreWanted starts runs.now → IsTrue result ↔ AllByRecursion (IsPlaced one) runs.now }
{
    let mut left = runs;
    while let Some((first, rest)) = left.split_first() {
        if !is_placed(places, first) {
            return false;
        }
        left = rest;
    }
    true
}

fn is_placed(places: &Places, run: &Run) -> bool
    ensures { (one : TypedUnit) (starts : List Bool) → ArePlaces one starts places.now → IsRunWanted starts run.now → IsTrue result ↔ IsPlaced one run.now }
{
    places.has_expression(run.span) && have_occurrences(places, run.occurrences.items())
}

fn have_occurrences(places: &Places, occurrences: &[Occurrence]) -> bool
    ensures { (one : TypedUnit) (starts : List Bool) → ArePlaces one starts places.now → AreOccurrencesWanted starts occurrences.now
        → IsTrue result ↔ AllByRecursion (IsOccurrencePlaced one) occurrences.now }
{
    let mut left = occurrences;
    while let Some((first, rest)) = left.split_first() {
        if !is_occurrence_placed(places, first) {
            return false;
        }
        left = rest;
    }
    true
}

fn is_occurrence_placed(places: &Places, occurrence: &Occurrence) -> bool
    ensures { (one : TypedUnit) (starts : List Bool) → ArePlaces one starts places.now → IsTrue (is_wanted starts occurrence.now.span) → IsTrue result ↔ IsOccurrencePlaced one occurrence.now }
{
    places.has_expression(occurrence.span) && !places.has_unevaluated(occurrence.span)
}

impl Places {
    /// Whether these tokens are an expression.
    fn has_expression(&self, span: Span) -> bool
        ensures { result ≡ has self.now.all span }
    {
        self.all.contains(&extent_of(span))
    }

    /// Whether they are one in an operand of `sizeof`.
    fn has_unevaluated(&self, span: Span) -> bool
        ensures { result ≡ has self.now.unevaluated span }
    {
        self.unevaluated.contains(&extent_of(span))
    }
}

fn extent_of(span: Span) -> Extent
    ensures { result ≡ seen.extent_of span }
{
    Extent {
        first: span.first,
        after: u64::from(span.after),
    }
}

/// An expression's tokens with so many pairs of parentheses round them.
fn widened(inner: Span, pairs: u32) -> Extent
    ensures { result ≡ seen.extent_of (widened inner pairs) }
{
    Extent {
        first: inner.first.saturating_sub(pairs),
        after: u64::from(inner.after) + u64::from(pairs),
    }
}

/// Those of a unit that begin with tokens that are marked.
fn places_of(alloc: Global, unit: &CoreUnit, starts: &[bool]) -> Result<Places, Memory>
    ensures { IfOk result (λ places. (types : Table) → ArePlaces (view_of_unit types unit.now) starts.now places) }
{
    let mut places = Places {
        all: HashSet::new(alloc),
        unevaluated: HashSet::new(alloc),
    };
    for external in unit.externals.items() {
        add_external(alloc, external, starts, &mut places)?;
    }
    Ok(places)
}

/// Adds those of an external declaration.
fn add_external(
    alloc: Global,
    external: &CoreExternal,
    starts: &[bool],
    places: &mut Places,
) -> Result<(), Memory>
    ensures all { OnOk result ((types : Table) (span : SeenSpan) → IsTrue (is_wanted starts.now span) → has places.new.all span ≡ (has places.old.all span || list_any (stands span) (nodes_of_external (view_of_external types external.now)))) }
    ensures unevaluated { OnOk result ((types : Table) (span : SeenSpan) → IsTrue (is_wanted starts.now span) → has places.new.unevaluated span
        ≡ (has places.old.unevaluated span || list_any (units.is_in_sizeof span) (nodes_of_external (view_of_external types external.now)))) }
{
    let trees = trees_of(alloc, external)?;
    for tree in &trees {
        add_tree(alloc, tree, starts, places)?;
    }
    Ok(())
}

/// The trees of an external declaration.
fn trees_of(alloc: Global, external: &CoreExternal) -> Result<Vec<&Core>, Memory>
    ensures { IfOk result (λ trees. (types : Table) → map (view types) (nows trees.items) ≡ trees_in_external (view_of_external types external.now)) }
{
    let mut trees = Vec::new(alloc);
    push_trees(external.constants.items(), &mut trees)?;
    push_form(&external.form, &mut trees)?;
    Ok(trees)
}

fn push_trees<'a>(list: &'a [Core], trees: &mut Vec<&'a Core>) -> Result<(), Memory>
    ensures { OnOk result ((types : Table) → map (view types) (nows trees.new.items) ≡ map (view types) (nows trees.old.items) ++ map (view types) list.now) }
{
    let mut left = list;
    while let Some((tree, rest)) = left.split_first() {
        trees.push(tree)?;
        left = rest;
    }
    Ok(())
}

fn push_form<'a>(form: &'a CoreExternalForm, trees: &mut Vec<&'a Core>) -> Result<(), Memory>
    ensures { OnOk result ((types : Table) → map (view types) (nows trees.new.items) ≡ map (view types) (nows trees.old.items) ++ trees_in_form (view_of_form types form.now)) }
{
    match form {
        CoreExternalForm::Declaration(locals) => {
            push_locals(locals.items(), trees)?;
            Ok(())
        }
        CoreExternalForm::Function {
            function: _,
            parameters: _,
            body,
        } => {
            trees.push(body)?;
            Ok(())
        }
    }
}

/// Adds those in a tree that stands in no operand of `sizeof`.
fn add_tree(alloc: Global, tree: &Core, starts: &[bool], places: &mut Places) -> Result<(), Memory>
    ensures all { OnOk result ((types : Table) (span : SeenSpan) → IsTrue (is_wanted starts.now span) → has places.new.all span ≡ (has places.old.all span || stands_in span (view types tree.now))) }
    ensures unevaluated { OnOk result ((types : Table) (span : SeenSpan) → IsTrue (is_wanted starts.now span) → has places.new.unevaluated span ≡ (has places.old.unevaluated span || is_unevaluated_in span (view types tree.now))) }
{
    let mut waiting = Vec::new(alloc);
    waiting.push(Waiting {
        tree,
        unevaluated: false,
    })?;
    while let Some(one) = waiting.pop() {
        enter(alloc, one, starts, &mut waiting, places)?;
    }
    Ok(())
}

/// Adds that of one tree, and lets its parts wait.
fn enter<'a>(
    alloc: Global,
    one: Waiting<'a>,
    starts: &[bool],
    waiting: &mut Vec<Waiting<'a>>,
    places: &mut Places,
) -> Result<(), Memory>
    ensures all { OnOk result ((types : Table) (span : SeenSpan) → IsTrue (is_wanted starts.now span) → (has places.new.all span || waits types span waiting.new.items)
        ≡ (has places.old.all span || (waits types span waiting.old.items || stands_in span (view types one.entry.tree.now)))) }
    ensures unevaluated { OnOk result ((types : Table) (span : SeenSpan) → IsTrue (is_wanted starts.now span) → (has places.new.unevaluated span || waits_unevaluated types span waiting.new.items)
        ≡ (has places.old.unevaluated span || (waits_unevaluated types span waiting.old.items || is_unevaluated_below one.entry.unevaluated span (view types one.entry.tree.now)))) }
    ensures fewer { OnOk result (nodes_left waiting.new.items + 1 ≡ nodes_left waiting.old.items + nodes_in (view no_type one.entry.tree.now)) }
{
    add_extents(one.tree, one.unevaluated, starts, places)?;
    let unevaluated = is_unevaluated_inside(one);
    push_below(alloc, one.tree, unevaluated, waiting)?;
    Ok(())
}

/// Lets the parts of a tree wait.
fn push_below<'a>(
    alloc: Global,
    tree: &'a Core,
    unevaluated: bool,
    waiting: &mut Vec<Waiting<'a>>,
) -> Result<(), Memory>
    ensures { OnOk result (AreAddedBelow unevaluated tree.now waiting.old.items waiting.new.items) }
{
    match operands_of(&tree.form) {
        Some(operands) => {
            push_list(operands.front, unevaluated, waiting)?;
            push_list(operands.back, unevaluated, waiting)?;
        }
        None => {
            let parts = parts_of(alloc, &tree.form)?;
            push_parts(&parts, unevaluated, waiting)?;
        }
    }
    Ok(())
}

/// Lets the trees of a list wait.
fn push_list<'a>(
    list: &'a [Core],
    unevaluated: bool,
    waiting: &mut Vec<Waiting<'a>>,
) -> Result<(), Memory>
    ensures { OnOk result (AreAdded unevaluated list.now waiting.old.items waiting.new.items) }
{
    let mut left = list;
    while let Some((tree, rest)) = left.split_first() {
        waiting.push(Waiting { tree, unevaluated })?;
        left = rest;
    }
    Ok(())
}

/// Whether the parts of a tree stand in an operand of `sizeof`.
fn is_unevaluated_inside(one: Waiting) -> bool
    ensures { (types : Table) → result ≡ (one.entry.unevaluated || units.is_sizeof (label_of (view types one.entry.tree.now))) }
{
    if one.unevaluated {
        return true;
    }
    is_sizeof(one.tree)
}

/// Lets trees wait.
fn push_parts<'a>(
    parts: &[&'a Core],
    unevaluated: bool,
    waiting: &mut Vec<Waiting<'a>>,
) -> Result<(), Memory>
    ensures { OnOk result (waiting.new.items ≡ waiting.old.items ++ map (seen.waiting_of unevaluated) parts.entry.now) }
{
    for tree in parts {
        waiting.push(Waiting { tree, unevaluated })?;
    }
    Ok(())
}

fn is_sizeof(tree: &Core) -> bool
    ensures { (types : Table) → result ≡ units.is_sizeof (label_of (view types tree.now)) }
{
    is_sizeof_form(&tree.form)
}

fn is_sizeof_form(form: &Form) -> bool
    ensures { (types : Table) → result ≡ units.is_sizeof (opened_form types form.now).label }
{
    matches!(form, Form::SizeofTree(_) | Form::SizeofKind(_, _))
}

/// Adds the extents of a tree itself.
fn add_extents(
    tree: &Core,
    unevaluated: bool,
    starts: &[bool],
    places: &mut Places,
) -> Result<(), Memory>
    ensures all { OnOk result ((types : Table) (span : SeenSpan) → IsTrue (is_wanted starts.now span) → has places.new.all span ≡ (has places.old.all span || stands span (view types tree.now))) }
    ensures unevaluated { OnOk result ((types : Table) (span : SeenSpan) → IsTrue (is_wanted starts.now span) → has places.new.unevaluated span ≡ (has places.old.unevaluated span || (unevaluated && stands span (view types tree.now)))) }
{
    if !is_value(tree) {
        return Ok(());
    }
    let pairs = pairs(tree);
    add_narrowing(tree.inner, pairs, starts, &mut places.all)?;
    if unevaluated {
        add_narrowing(tree.inner, pairs, starts, &mut places.unevaluated)?;
    }
    Ok(())
}

/// Adds an expression's tokens with as many pairs of parentheses round them, with one pair less, and so on.
fn add_narrowing(
    inner: Span,
    pairs: u32,
    starts: &[bool],
    extents: &mut HashSet<Extent>,
) -> Result<(), Memory>
    ensures { OnOk result ((span : SeenSpan) → IsTrue (is_wanted starts.now span) → has extents.new span ≡ (has extents.old span || list_any (is_same_span span) (narrowing inner pairs))) }
{
    let mut left = pairs;
    while left > 0 {
        add_widened(inner, left, starts, extents)?;
        left -= 1;
    }
    add_widened(inner, 0, starts, extents)?;
    Ok(())
}

/// Adds them with so many pairs, if the token is marked with which they begin.
fn add_widened(
    inner: Span,
    pairs: u32,
    starts: &[bool],
    extents: &mut HashSet<Extent>,
) -> Result<(), Memory>
    ensures { OnOk result ((span : SeenSpan) → IsTrue (is_wanted starts.now span) → has extents.new span ≡ (is_same_span span (widened inner pairs) || has extents.old span)) }
{
    let extent = widened(inner, pairs);
    if is_marked(starts, extent.first) {
        extents.insert(extent)?;
    }
    Ok(())
}
