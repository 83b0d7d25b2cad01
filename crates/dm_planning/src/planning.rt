//! The plan of a project.

ghost use Rattle.std.specs.Prelude.{◌≡◌, ◌≢◌, ◌<◌, ◌≤◌, ◌++◌, ℕ, List as Sequence, false, All, IfOk, OnOk, length, map, bytes_eq, IsPermutation, IsSortedByKey};
ghost use Rattle.std.specs.List.{IsDistinct};
ghost use Rattle.std.specs.Cmp.Lexicographic.{slice_cmp};
ghost use Rattle.std.specs.Ordering.{nat_cmp};
ghost use Rattle.dm_token.specs.declared.stop.Stop.TheVariants.{Memory as memory_wanted, ReadFault};
ghost use Rattle.dm_io.specs.Faults.{Rose};
ghost use Rattle.dm_io.specs.Files.{HasFile};
ghost use Rattle.dm_search.specs.Loaded.{is_held};
ghost use Rattle.dm_unit.specs.Loaders.{most_names};
ghost use Rattle.dm_edit.specs.declared.plan.Changed.{Changed};
ghost use Rattle.dm_readings.specs.Leaves.{AreThere, IsNumbered};
ghost use Rattle.dm_readings.specs.Units.{HasShortDefines};
ghost use Rattle.dm_subjects.specs.Files.{changed_file, edited_files};
ghost use Rattle.dm_planning.specs.Plans.{IsPlanned};

use crate::judging::judge_all;
use dm_edit::{Entry, Plan};
use dm_io::Folder;
use dm_project::{Steps, read_units};
use dm_search::Loader;
use dm_subjects::{changed_files, subjects};
use dm_token::{List, Memory, Stop, Text, Unit};
use std::alloc::Global;
use std::sync::ledger::Ledger;

/// What becomes of the macro definitions in files of a project, and the files with the declarations in their place. Each unit is read
/// once, and again where an edit changes a file that it reads. Nothing is written: the loader holds the bytes of the changed files.
///
/// # Errors
///
/// The first stop of the first readings. A fault of the folder may come at a later one too; any other stop there keeps the definition
/// as it is.
pub fn plan<F: Folder, L: Ledger>(
    alloc: Global,
    folder: &mut F,
    loader: &mut Loader,
    units: &[Unit],
    readings: &mut Steps<L>,
) -> Result<Plan, Stop>
    requires room { length loader.old.names < most_names }
    requires short { All HasShortDefines units.now }
    // The files that the loader holds are files of the folder.
    requires there { AreThere (F.files folder.old) loader.old }
    ensures planned { IsPlanned (F.files folder.old) units.now loader.old readings.old result loader.new readings.new }

    // The files to be written are files of the folder, and no two have one name.
    ensures there { IfOk result (λ plan. All (λ (one : Changed). HasFile (F.files folder.old) one.name) plan.files) }
    ensures distinct { IfOk result (λ plan. IsDistinct bytes_eq (map (λ (one : Changed). one.name) plan.files)) }

    // Each name keeps its number, and there is room for those of a unit more.
    ensures names { result ≢ Err memory_wanted → (more : Sequence (Sequence ℕ)) × (loader.new.names ≡ loader.old.names ++ more) }
    ensures roomy { result ≢ Err memory_wanted → length loader.new.names < most_names }

    // A fault has its cause outside, and names a file without known bytes.
    ensures failed { (file : ℕ) → result ≡ Err (ReadFault file) → Rose (F.faults folder.old) (F.faults folder.new) }
    ensures unheld { (file : ℕ) → result ≡ Err (ReadFault file) → is_held loader.old file ≡ false }

    ensures files_stay { F.files folder.new ≡ F.files folder.old }
    ensures rooms_stay { (other : Sequence ℕ) → F.room folder.new other ≡ F.room folder.old other }
    ensures later { F.faults folder.old ≤ F.faults folder.new }
{
    let mut kept = read_units(alloc, folder, loader, units, readings)?;
    let judged = subjects(alloc, loader, kept.items())?;
    let entries = judge_all(
        alloc,
        folder,
        loader,
        units,
        &mut kept,
        judged.items(),
        readings,
    )?;
    let plan = plan_of(alloc, loader, entries)?;
    Ok(plan)
}

/// The plan with these outcomes. The files with a rewritten definition are those that the loader holds.
fn plan_of(alloc: Global, loader: &Loader, entries: List<Entry>) -> Result<Plan, Memory>
    requires room { length loader.now.names < most_names }
    ensures entries { IfOk result (λ plan. plan.entries ≡ entries) }
    ensures names { IfOk result (λ plan. plan.names ≡ loader.now.names) }
    ensures numbered { OnOk result (IsNumbered loader.now) }
    ensures files { IfOk result (λ plan. IsPermutation (map (changed_file loader.now) (edited_files loader.now entries)) plan.files) }
    ensures ascending { IfOk result (λ plan. IsSortedByKey (λ (one : Changed). one.name) (slice_cmp nat_cmp) plan.files) }
    ensures distinct { IfOk result (λ plan. IsDistinct bytes_eq (map (λ (one : Changed). one.name) plan.files)) }
{
    // The clause `numbered`, on which that of the files rests.
    loader.names_differ();
    let files = changed_files(alloc, loader, entries.items())?;
    let names = copies(alloc, loader.names())?;
    Ok(Plan {
        entries,
        names,
        files,
    })
}

/// The same texts, whose bytes are shared.
fn copies(alloc: Global, texts: &[Text]) -> Result<List<Text>, Memory>
    ensures { IfOk result (λ copied. copied ≡ texts.now) }
{
    let mut copied = List::new(alloc);
    for text in texts {
        copied.push(text.copy()?)?;
    }
    Ok(copied)
}
