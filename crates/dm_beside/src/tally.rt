//! What is known of the occurrences of parameters.

ghost use Rattle.std.specs.Prelude.{◌≡◌, ◌<◌, ◌==◌, ◌≤◌, ℕ, if◌then◌else◌, IfOk, OnOk, vec_len};
ghost use Rattle.std.specs.List.{list_all};
ghost use Rattle.dm_token.specs.declared.place.Span.{Span as SeenSpan};
ghost use Rattle.dm_runs.specs.declared.run.Occurrence.{Occurrence as SeenOccurrence};
ghost use Rattle.dm_beside.specs.declared.tally.Fact.{Fact as SeenFact};
ghost use Rattle.dm_beside.specs.Tallies as tallies;
ghost use Rattle.dm_beside.specs.Tallies.{spans_for, tally_of};

use dm_runs::Occurrence;
use dm_token::{Memory, Span};
use std::alloc::Global;

/// What is known of an occurrence.
#[derive(Clone, Copy)]
pub(crate) struct Fact {
    pub first: bool,
    pub stable: bool,
    pub safe: bool,
}

/// What is known of the occurrences of a parameter.
#[derive(Clone, Copy)]
pub(crate) struct Tally {
    /// Whether there are any.
    pub some: bool,
    /// Whether there are two or more.
    pub several: bool,
    /// Whether one is first.
    pub first: bool,
    /// Whether all are stable.
    pub stable: bool,
    /// Whether all are safe.
    pub safe: bool,
}

/// What tells of each occurrence of a run what is known of it.
pub(crate) trait Facts {
    ghost told: { Self → SeenSpan → SeenFact };

    /// What is known of the occurrence that has these tokens.
    fn tell(&self, span: Span) -> Result<Fact, Memory>
        ensures { IfOk result (λ fact. fact ≡ told self.now span) };
}

fn none_yet() -> Tally
    ensures { result ≡ tallies.none_yet }
{
    Tally {
        some: false,
        several: false,
        first: false,
        stable: true,
        safe: true,
    }
}

/// One more occurrence.
fn added(fact: Fact, tally: Tally) -> Tally
    ensures { result ≡ tallies.added fact tally }
{
    Tally {
        some: true,
        several: tally.some,
        first: fact.first || tally.first,
        stable: fact.stable && tally.stable,
        safe: fact.safe && tally.safe,
    }
}

/// Whether the only occurrence is first, or all are stable, and one is first or all are safe.
fn is_passed(tally: Tally) -> bool
    ensures { result ≡ tallies.is_passed tally }
{
    let once = tally.first && !tally.several;
    let early = tally.stable && (tally.first || tally.safe);
    once || early
}

/// What is known of the parameter of this position.
fn tally_at(table: &[Tally], parameter: u32) -> Tally
    ensures { result ≡ tallies.tally_at table.now parameter }
{
    match table.get(parameter as usize) {
        Some(tally) => *tally,
        None => none_yet(),
    }
}

/// The table goes beyond this position.
fn grow(table: &mut Vec<Tally>, at: usize) -> Result<(), Memory>
    ensures same { OnOk result ((n : ℕ) → tallies.tally_at table.new.items n ≡ tallies.tally_at table.old.items n) }
    ensures long { OnOk result (at < vec_len table.new) }
{
    while table.len() <= at {
        table.push(none_yet())?;
    }
    Ok(())
}

/// Puts what is known of a parameter at its position.
fn put(table: &mut Vec<Tally>, at: usize, tally: Tally) -> Result<(), Memory>
    ensures { OnOk result ((n : ℕ) → tallies.tally_at table.new.items n ≡ (if at == n then tally else tallies.tally_at table.old.items n)) }
{
    grow(table, at)?;
    table[at] = tally;
    Ok(())
}

/// One more occurrence of a parameter.
fn note(table: &mut Vec<Tally>, parameter: u32, fact: Fact) -> Result<(), Memory>
    ensures { OnOk result ((n : ℕ) → tallies.tally_at table.new.items n
        ≡ (if parameter == n then tallies.added fact (tallies.tally_at table.old.items n) else tallies.tally_at table.old.items n)) }
{
    let tally = added(fact, tally_at(table.as_slice(), parameter));
    put(table, parameter as usize, tally)?;
    Ok(())
}

/// What is known of each parameter of a run.
fn tallied<F: Facts>(
    alloc: Global,
    occurrences: &[Occurrence],
    facts: &F,
) -> Result<Vec<Tally>, Memory>
    ensures { IfOk result (λ table. (n : ℕ) → tallies.tally_at table.items n ≡ tally_of (F.told facts.now) (spans_for occurrences.now n)) }
{
    let mut table = Vec::new(alloc);
    let mut left = occurrences;
    while let Some((occurrence, before)) = left.split_last() {
        let fact = facts.tell(occurrence.span)?;
        note(&mut table, occurrence.parameter, fact)?;
        left = before;
    }
    Ok(table)
}

/// Whether what is known of each parameter that occurs is enough.
fn are_passed(table: &[Tally], occurrences: &[Occurrence]) -> bool
    ensures { result ≡ list_all (λ (each : SeenOccurrence). tallies.is_passed (tallies.tally_at table.now each.parameter)) occurrences.now }
{
    let mut left = occurrences;
    while let Some((occurrence, rest)) = left.split_first() {
        if !is_passed(tally_at(table, occurrence.parameter)) {
            return false;
        }
        left = rest;
    }
    true
}

/// Whether each parameter that occurs in a run passes.
pub(crate) fn all_pass<F: Facts>(
    alloc: Global,
    occurrences: &[Occurrence],
    facts: &F,
) -> Result<bool, Memory>
    ensures { IfOk result (λ answer. answer ≡ list_all (λ (each : SeenOccurrence). tallies.is_passed (tally_of (F.told facts.now) (spans_for occurrences.now each.parameter))) occurrences.now) }
{
    let table = tallied(alloc, occurrences, facts)?;
    Ok(are_passed(table.as_slice(), occurrences))
}
