//! Runs, and occurrences of parameters, found by their spans.

ghost use Rattle.std.specs.Prelude.{◌≡◌, ◌++◌, ◌^◌, ◌<◌, ℕ, None, IfOk, OnOk, cond, flat_map, nat_eq, [], ◌∷◌, List as Sequence};
ghost use Rattle.std.specs.HashMap as hash;
ghost use Rattle.dm_token.specs.declared.place.Span.{Span as SeenSpan};
ghost use Rattle.dm_runs.specs.declared.run.Occurrence.{Occurrence as SeenOccurrence};
ghost use Rattle.dm_type.specs.Tables.{Table};
ghost use Rattle.dm_tree.specs.Trees.{label_of, spans_of};
ghost use Rattle.dm_tree.specs.Views.{view};
ghost use Rattle.dm_agree.specs.Index as index;
ghost use Rattle.dm_agree.specs.Index.{first_parameter, group_of, parameter_by, runs_by};
ghost use Rattle.dm_agree.specs.Runs.{runs_in};
ghost use Rattle.dm_agree.specs.Standing as standing;
ghost use Rattle.dm_agree.specs.Standing.{narrowing, occurrences_with, runs_with, widened};

use crate::standing::{is_apart, is_value};
use crate::starts::{is_marked, mark};
use dm_runs::{Occurrence, Run};
use dm_token::{Memory, Span};
use dm_tree::Core;
use std::alloc::Global;
use std::collections::HashMap;
use std::marker::Model;

/// The number of a span.
fn key(first: u32, after: u64) -> u128
    ensures { result ≡ index.key (record { first = first; after = after }) }
{
    u128::from(first) * (1 << 64) + u128::from(after)
}

/// The number of the span with as many pairs of parentheses round it.
fn widened_key(inner: Span, pairs: u32) -> u128
    ensures { result ≡ index.key (widened inner pairs) }
{
    key(
        inner.first.saturating_sub(pairs),
        u64::from(inner.after) + u64::from(pairs),
    )
}

/// How many pairs of parentheses stand round a tree.
pub fn pairs(tree: &Core) -> u32
    ensures { (types : Table) → narrowing tree.now.inner result ≡ standing.extents (spans_of (view types tree.now)) }
{
    tree.inner.first.saturating_sub(tree.outer.first)
}

/// The runs of a macro in a unit, found by their spans. Contracts see the runs.
#[derive(Drop)]
pub struct RunIndex<'a> {
    runs: &'a [Run],
    /// Of each token, whether a run begins with it.
    starts: Vec<bool>,
    by_span: HashMap<u128, Vec<&'a Run>>,
}

impl<'a> Model for RunIndex<'a> {
    ghost use Rattle.std.specs.Prelude.{List};
    ghost use Rattle.dm_runs.specs.declared.run.Run.{Run as SeenRun};
    ghost use Rattle.dm_agree.specs.Index.{AreStarts, IsRunIndex};

    ghost Value = { List SeenRun };

    ghost view = { λ index. index.runs.now };

    ghost invariant = { λ index. IsRunIndex index.by_span index.runs.now × AreStarts index.starts.items index.runs.now };
}

impl<'a> RunIndex<'a> {
    /// That of some runs.
    pub fn of(alloc: Global, runs: &'a [Run]) -> Result<RunIndex<'a>, Memory>
        ensures { IfOk result (λ made. made ≡ runs.now) }
    {
        let mut starts = Vec::new(alloc);
        let mut by_span = HashMap::new(alloc);
        for run in runs {
            mark(&mut starts, run.span.first)?;
            add_run(alloc, run, &mut by_span)?;
        }
        Ok(RunIndex {
            runs,
            starts,
            by_span,
        })
    }

    /// The runs that stand at a tree, from the outside in.
    pub(crate) fn at(&self, alloc: Global, tree: &Core) -> Result<Vec<&'a Run>, Memory>
        ensures { IfOk result (λ found. (types : Table) → runs_in found.items ≡ standing.runs_at self.now (view types tree.now)) }
    {
        let mut found = Vec::new(alloc);
        if !is_value(tree) {
            return Ok(found);
        }
        self.push_narrowing(tree.inner, pairs(tree), &mut found)?;
        Ok(found)
    }

    /// Those that stand at a part of a node.
    pub(crate) fn below(
        &self,
        alloc: Global,
        above: &Core,
        part: &Core,
    ) -> Result<Vec<&'a Run>, Memory>
        ensures { IfOk result (λ found. (types : Table) → runs_in found.items
            ≡ standing.runs_below self.now (label_of (view types above.now)) (spans_of (view types above.now)) (view types part.now)) }
    {
        if is_apart(above, part) {
            let found = self.at(alloc, part)?;
            Ok(found)
        } else {
            Ok(Vec::new(alloc))
        }
    }

    /// Adds those that have these tokens with as many pairs of parentheses round them, with one pair less, and so on.
    fn push_narrowing(
        &self,
        inner: Span,
        pairs: u32,
        found: &mut Vec<&'a Run>,
    ) -> Result<(), Memory>
        ensures { OnOk result (runs_in found.new.items ≡ runs_in found.old.items ++ flat_map (runs_with self.now) (narrowing inner pairs)) }
    {
        let mut left = pairs;
        while left > 0 {
            self.push_widened(inner, left, found)?;
            left -= 1;
        }
        self.push_widened(inner, 0, found)?;
        Ok(())
    }

    /// Adds those that have them with so many pairs.
    fn push_widened(&self, inner: Span, pairs: u32, found: &mut Vec<&'a Run>) -> Result<(), Memory>
        ensures { OnOk result (runs_in found.new.items ≡ runs_in found.old.items ++ runs_with self.now (widened inner pairs)) }
    {
        if !is_marked(&self.starts, inner.first.saturating_sub(pairs)) {
            return Ok(());
        }
        if let Some(group) = self.by_span.get(&widened_key(inner, pairs)) {
            for run in group {
                found.push(*run)?;
            }
        }
        Ok(())
    }
}

/// Adds a run to those of its span.
fn add_run<'a>(
    alloc: Global,
    run: &'a Run,
    by_span: &mut HashMap<u128, Vec<&'a Run>>,
) -> Result<(), Memory>
    ensures { OnOk result ((span : SeenSpan) → span.after < 2 ^ 64 → runs_by by_span.new span ≡ runs_by by_span.old span ++ runs_with (run.now ∷ []) span) }
{
    let number = key(run.span.first, u64::from(run.span.after));
    let mut group = take_group(alloc, by_span, number);
    group.push(run)?;
    by_span.insert(number, group)?;
    Ok(())
}

/// Takes out the runs of a span's number.
fn take_group<'a>(
    alloc: Global,
    by_span: &mut HashMap<u128, Vec<&'a Run>>,
    number: u128,
) -> Vec<&'a Run>
    ensures group { runs_in result.items ≡ group_of (hash.get nat_eq by_span.old number) }
    ensures rest { (q : ℕ) → hash.get nat_eq by_span.new q ≡ cond (nat_eq number q) None (hash.get nat_eq by_span.old q) }
{
    match by_span.remove(&number) {
        Some(group) => group,
        None => Vec::new(alloc),
    }
}

/// The occurrences of parameters in a run, of which the first with a span is found. Contracts see the run.
#[derive(Drop)]
pub(crate) struct OccurrenceIndex<'a> {
    run: &'a Run,
    by_span: HashMap<u128, u32>,
}

impl<'a> Model for OccurrenceIndex<'a> {
    ghost use Rattle.dm_runs.specs.declared.run.Run.{Run as SeenRun};
    ghost use Rattle.dm_agree.specs.Index.{IsOccurrenceIndex};

    ghost Value = { SeenRun };

    ghost view = { λ index. index.run.now };

    ghost invariant = { λ index. IsOccurrenceIndex index.by_span index.run.now.occurrences };
}

impl<'a> OccurrenceIndex<'a> {
    /// That of a run.
    pub(crate) fn of(alloc: Global, run: &'a Run) -> Result<OccurrenceIndex<'a>, Memory>
        ensures { IfOk result (λ made. made ≡ run.now) }
    {
        let mut by_span = HashMap::new(alloc);
        let mut left = run.occurrences.items();
        while let Some((one, before)) = left.split_last() {
            put_occurrence(one, &mut by_span)?;
            left = before;
        }
        Ok(OccurrenceIndex { run, by_span })
    }

    /// The parameter of the first that stands at a tree, from the outside in.
    pub(crate) fn at(&self, tree: &Core) -> Option<u32>
        ensures { (types : Table) → result ≡ first_parameter (standing.occurrences_at self.now.occurrences (view types tree.now)) }
    {
        if is_value(tree) {
            self.first_narrowing(tree.inner, pairs(tree))
        } else {
            None
        }
    }

    /// That of the first that stands at a part of a node.
    pub(crate) fn below(&self, above: &Core, part: &Core) -> Option<u32>
        ensures { (types : Table) → result
            ≡ first_parameter (standing.occurrences_below self.now.occurrences (label_of (view types above.now)) (spans_of (view types above.now)) (view types part.now)) }
    {
        if is_apart(above, part) {
            self.at(part)
        } else {
            None
        }
    }

    /// That of the first that has these tokens with as many pairs of parentheses round them, with one pair less, and so on.
    fn first_narrowing(&self, inner: Span, pairs: u32) -> Option<u32>
        ensures { result ≡ first_parameter (flat_map (occurrences_with self.now.occurrences) (narrowing inner pairs)) }
    {
        let mut left = pairs;
        while left > 0 {
            let found = self.widened(inner, left);
            if found.is_some() {
                return found;
            }
            left -= 1;
        }
        self.widened(inner, 0)
    }

    /// That of the first that has them with so many pairs.
    fn widened(&self, inner: Span, pairs: u32) -> Option<u32>
        ensures { result ≡ first_parameter (occurrences_with self.now.occurrences (widened inner pairs)) }
    {
        self.by_span.get(&widened_key(inner, pairs)).copied()
    }
}

/// Puts an occurrence before the others of its span.
fn put_occurrence(one: &Occurrence, by_span: &mut HashMap<u128, u32>) -> Result<(), Memory>
    ensures { OnOk result ((span : SeenSpan) → span.after < 2 ^ 64 → (others : Sequence SeenOccurrence) → parameter_by by_span.old span ≡ first_parameter (occurrences_with others span)
        → parameter_by by_span.new span ≡ first_parameter (occurrences_with (one.now ∷ others) span)) }
{
    let number = key(one.span.first, u64::from(one.span.after));
    by_span.insert(number, one.parameter)?;
    Ok(())
}
