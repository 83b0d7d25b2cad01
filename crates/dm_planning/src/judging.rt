//! The outcomes of a project's definitions, from the last to the first.

ghost use Rattle.std.specs.Prelude.{◌≡◌, ◌<◌, ◌≤◌, ℕ, List as Sequence, Option as Maybe, false, All, IfOk, IfErr, OnOk, length, reverse};
ghost use Rattle.dm_token.specs.declared.unit.Unit.{Unit as Source};
ghost use Rattle.dm_io.specs.Files.{Files};
ghost use Rattle.dm_unit.specs.Loaders.{most_names};
ghost use Rattle.dm_unit.specs.Views.{stop_of};
ghost use Rattle.dm_judge.specs.Units.{AreTyped};
ghost use Rattle.dm_rules.specs.Indexes.{readings_of};
ghost use Rattle.dm_subjects.specs.Tables.{AreKnown, HaveNames};
ghost use Rattle.dm_readings.specs.Units.{HasShortDefines};
ghost use Rattle.dm_planning.specs.Judging.{JudgesAll, Project, entry_with, reread_rule};
ghost use Rattle.dm_planning.specs.Steps.{AreGood, HasJudged, IsNext, LeavesProject, is_of_source, project_of};
ghost use Rattle.dm_edit.specs.declared.plan.Fate.TheVariants.{Kept};

use crate::editing::{REREAD_RULE, edit_one};
use dm_edit::{Change, Entry, Fate};
use dm_io::Folder;
use dm_judge::{Proposal, Units, indexes_of, names_of, propose_in};
use dm_names::Names;
use dm_project::Steps;
use dm_reading::{Reading, copy_of_definition};
use dm_rules::Index;
use dm_search::Loader;
use dm_subjects::{Known, Lines, Subject, definition_by, indexes_with, tables_of};
use dm_token::{Definition, List, Memory, Place, Stop, Unit};
use std::alloc::Global;
use std::mem;
use std::sync::ledger::Ledger;

/// What becomes of each definition, in their order. The last is judged first, and each in the project as edited so far.
///
/// What indexes know of a reading, and what its names mean, is made once, and kept until an edit changes the unit. What tells types is made
/// anew behind each edit, of those units alone that expand a definition that is judged then. A definition is found by its line.
pub(crate) fn judge_all<F: Folder, L: Ledger>(
    alloc: Global,
    folder: &mut F,
    loader: &mut Loader,
    units: &[Unit],
    kept: &mut List<Reading>,
    subjects: &[Subject],
    readings: &mut Steps<L>,
) -> Result<List<Entry>, Stop>
    requires room { length loader.old.names < most_names }
    requires short { All HasShortDefines units.now }
    requires good { AreGood units.now kept.old }
    ensures judges { IfOk result (λ entries. JudgesAll (F.files folder.old) units.now (project_of loader.old kept.old readings.old) subjects.now entries
        (project_of loader.new kept.new readings.new)) }
    ensures good { OnOk result (AreGood units.now kept.new) }
    // A stop that a source is the cause of ends no plan: a definition is kept for it.
    ensures stops { IfErr result (λ stop. is_of_source stop ≡ false) }
    ensures leaves { LeavesProject (F.files folder.old) (F.files folder.new) (F.room folder.old) (F.room folder.new) (F.faults folder.old) (F.faults folder.new) loader.old loader.new (stop_of result) }
{
    let mut known = known_of(alloc, kept.items())?;
    let mut entries = List::new(alloc);
    while let Some(change) = next_change(
        alloc,
        loader,
        kept.items(),
        &mut known,
        subjects,
        &mut entries,
    )? {
        let entry = edit_one(
            alloc, folder, loader, units, kept, &mut known, change, readings,
        )?;
        entries.push(entry)?;
    }
    Ok(reversed(entries))
}

/// The same outcomes, the first one last.
fn reversed(entries: List<Entry>) -> List<Entry>
    ensures { result ≡ reverse entries }
{
    let mut items = entries.into_vec();
    items.reverse();
    List::from_vec(items)
}

/// What is known of some readings, each gone through once.
fn known_of(alloc: Global, readings: &[Reading]) -> Result<Known, Memory>
    requires { AreTyped readings.now }
    ensures { IfOk result (AreKnown readings.now) }
{
    let names = names_of(alloc, readings)?;
    let indexes = indexes_of(alloc, readings)?;
    let tables = tables_of(alloc, indexes)?;
    Ok(Known { tables, names })
}

/// Judges definitions in a project that stays as it is, from the last one without an outcome on, up to the first that is to be edited.
fn next_change(
    alloc: Global,
    loader: &Loader,
    kept: &[Reading],
    known: &mut Known,
    subjects: &[Subject],
    entries: &mut List<Entry>,
) -> Result<Option<Change>, Memory>
    requires typed { AreTyped kept.now }
    requires known { AreKnown kept.now known.old }
    requires few { length entries.old ≤ length subjects.now }
    ensures judged { OnOk result ((told : Maybe Files) (units : Sequence Source) (first : Project) (count : ℕ) →
        HasJudged told units first subjects.now entries.old (project_of loader.now kept.now count) →
        HasJudged told units first subjects.now entries.new (project_of loader.now kept.now count)) }
    ensures next { IfOk result (λ change. IsNext loader.now kept.now subjects.now entries.new change) }
    ensures known { OnOk result (AreKnown kept.now known.new) }
    ensures more { OnOk result (length entries.old ≤ length entries.new) }
{
    let tables = mem::replace(&mut known.tables, Vec::new(alloc));
    let indexes = indexes_with(alloc, kept, tables)?;
    let names = known.names.as_slice();
    let change = next_among(alloc, loader, indexes.as_slice(), names, subjects, entries)?;
    known.tables = tables_of(alloc, indexes)?;
    Ok(change)
}

/// The same by the indexes of the units, and by what their names mean.
fn next_among(
    alloc: Global,
    loader: &Loader,
    by_unit: &[Index],
    names: &[Names],
    subjects: &[Subject],
    entries: &mut List<Entry>,
) -> Result<Option<Change>, Memory>
    requires typed { AreTyped (readings_of by_unit.now) }
    requires named { HaveNames (readings_of by_unit.now) names.now }
    requires few { length entries.old ≤ length subjects.now }
    ensures judged { OnOk result ((told : Maybe Files) (units : Sequence Source) (first : Project) (count : ℕ) →
        HasJudged told units first subjects.now entries.old (project_of loader.now (readings_of by_unit.now) count) →
        HasJudged told units first subjects.now entries.new (project_of loader.now (readings_of by_unit.now) count)) }
    ensures next { IfOk result (λ change. IsNext loader.now (readings_of by_unit.now) subjects.now entries.new change) }
    ensures more { OnOk result (length entries.old ≤ length entries.new) }
{
    let mut project = Units::of(alloc, by_unit, names)?;
    let mut lines = Lines::of(alloc, loader, 0)?;
    for judged in entries.len()..subjects.len() {
        let subject = &subjects[subjects.len() - 1 - judged];
        let here = lines.at(alloc, subject.key.file)?;
        let found = definition_by(&here, by_unit, subject.key);
        lines = here;
        let Some(definition) = found else {
            entries.push(unread_entry(alloc, &subject.definition)?)?;
            continue;
        };
        match propose_in(alloc, &mut project, definition)? {
            Proposal::Broken { rule, place } => {
                entries.push(kept_entry(alloc, definition, rule, place)?)?;
            }
            Proposal::Change(change) => return Ok(Some(change)),
        }
    }
    Ok(None)
}

/// A definition that stays, since no unit reads it any more.
fn unread_entry(alloc: Global, definition: &Definition) -> Result<Entry, Memory>
    ensures { IfOk result (λ entry. entry ≡ entry_with definition.now (Kept reread_rule definition.now.place)) }
{
    kept_entry(alloc, definition, REREAD_RULE, definition.place)
}

/// A definition that stays by a rule.
fn kept_entry(
    alloc: Global,
    definition: &Definition,
    rule: u8,
    place: Place,
) -> Result<Entry, Memory>
    ensures { IfOk result (λ entry. entry ≡ entry_with definition.now (Kept rule place)) }
{
    Ok(Entry {
        definition: copy_of_definition(alloc, definition)?,
        outcome: Fate::Kept { rule, place },
    })
}
