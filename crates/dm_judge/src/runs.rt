//! The rules that ask what stands where the runs of a macro stand.

ghost use Rattle.std.specs.Prelude.{◌≡◌, IfOk, IfSome};
ghost use Rattle.dm_tree.specs.TypeNumbers.{IsTypedUnit};
ghost use Rattle.dm_meanings.specs.First.{place_at, reading_of};
ghost use Rattle.dm_judge.specs.Rules as rules;
ghost use Rattle.dm_judge.specs.Units.{AreReady, AreWhole, IsNoted, readings_of};

use crate::notes::Notes;
use crate::rule::RunRule;
use crate::units::Units;
use dm_beside::{evaluates_alike_amid, is_subtree, is_value, may_be_constant};
use dm_meanings::Meanings;
use dm_rules::Instances;
use dm_runs::Run;
use dm_token::{Definition, Memory, Place};
use std::alloc::Global;

/// Whether a run keeps a rule.
fn keeps(
    alloc: Global,
    rule: RunRule,
    definition: &Definition,
    unit: &Meanings,
    notes: &Notes,
    run: &Run,
) -> Result<bool, Memory>
    requires typed { IsTypedUnit unit.now.index.now.reading.now.types unit.now.index.now.reading.now.core }
    requires same { notes.now.quiet ≡ unit.now.index.now.reading.now.core }
    ensures { IfOk result (λ kept. kept ≡ rules.keeps rule definition.now unit.now.index.now.reading.now run.now) }
{
    let types = &unit.index.reading.types;
    let sites = &unit.sites;
    match rule {
        RunRule::Subtree => Ok(is_subtree(sites, run)),
        RunRule::Constant => {
            let is_function = definition.parameters.is_some();
            Ok(may_be_constant(sites, types, is_function, run))
        }
        RunRule::Lvalue => Ok(is_value(sites, run)),
        RunRule::Evaluation => {
            let (round, quiet) = (&notes.surroundings, &notes.quiet);
            evaluates_alike_amid(alloc, sites, round, quiet, &notes.objects, types, run)
        }
    }
}

/// The name of the first expansion in a unit that has a run that breaks a rule.
fn failing_in(
    alloc: Global,
    rule: RunRule,
    definition: &Definition,
    unit: &Meanings,
    notes: &Notes,
) -> Result<Option<Place>, Memory>
    requires typed { IsTypedUnit unit.now.index.now.reading.now.types unit.now.index.now.reading.now.core }
    requires same { notes.now.quiet ≡ unit.now.index.now.reading.now.core }
    ensures { IfOk result (λ place. place ≡ rules.failing_in rule definition.now unit.now.index.now.reading.now) }
{
    let mut failing = Instances::new(alloc);
    let runs = unit.index.runs_of(definition);
    for run in runs {
        let kept = keeps(alloc, rule, definition, unit, notes, run)?;
        failing.add_if(run, !kept)?;
    }
    Ok(unit.index.first_with(definition, &failing))
}

/// The same, where its types are looked up and its trees noted.
fn failing_at(
    alloc: Global,
    rule: RunRule,
    definition: &Definition,
    unit: &Option<Meanings>,
    notes: &Option<Notes>,
) -> Result<Option<Place>, Memory>
    requires typed { IfSome unit.now (λ one. IsTypedUnit (reading_of one).types (reading_of one).core) }
    requires noted { IsNoted unit.now notes.now }
    ensures { IfOk result (λ place. place ≡ place_at (rules.failing_in rule definition.now) unit.now) }
{
    match (unit, notes) {
        (Some(unit), Some(notes)) => failing_in(alloc, rule, definition, unit, notes),
        _ => Ok(None),
    }
}

/// The name of the first expansion that has a run that breaks a rule.
pub(crate) fn broken_on_runs(
    alloc: Global,
    rule: RunRule,
    definition: &Definition,
    units: &Units,
) -> Result<Option<Place>, Memory>
    requires whole { AreWhole units.now }
    requires ready { AreReady definition.now units.now }
    ensures { IfOk result (λ place. place ≡ rules.broken_on_runs rule definition.now (readings_of units.now)) }
{
    let meanings = units.meanings.as_slice();
    for number in 0..meanings.len() {
        let notes = &units.notes[number];
        let found = failing_at(alloc, rule, definition, &meanings[number], notes)?;
        if let Some(place) = found {
            return Ok(Some(place));
        }
    }
    Ok(None)
}
