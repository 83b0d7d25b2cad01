//! The reading again of the units that read an edited file.

ghost use Rattle.std.specs.Prelude.{◌≡◌, ◌≢◌, ◌+◌, ◌<◌, ◌≤◌, ℕ, List as Sequence, [], ◌∷◌, Option as Maybe, Some, Err, All, IfOk, IfSome, OnOk, length, drop, is_some, unwrap_or, false};
ghost use Rattle.dm_token.specs.declared.stop.Stop.TheVariants.{Memory as memory_wanted, ReadFault};
ghost use Rattle.dm_io.specs.Faults.{Rose};
ghost use Rattle.dm_io.specs.Files.{Files};
ghost use Rattle.dm_search.specs.Loaded.{is_held};
ghost use Rattle.dm_unit.specs.Loaders.{most_names};
ghost use Rattle.dm_unit.specs.Views.{StaysServed, stop_of};
ghost use Rattle.dm_reading.specs.Layered.{IsLayered};
ghost use Rattle.dm_reading.specs.declared.reading.Reading.{Reading as One};
ghost use Rattle.dm_readings.specs.Again.{AreReaders, IsReadAgain, MayRead, NextAgain, ReadsAgain, ReadsOthers, put_in, reader_count, reads as reads_file};
ghost use Rattle.dm_readings.specs.Leaves.{AreThere, IsNumbered, LeavesKnown, StaysKnown, memory_of};
ghost use Rattle.dm_readings.specs.Units.{HasShortDefines, KeepsLimits, IsTyped, most_project_tokens, token_count};

use crate::units::{MOST_PROJECT_TOKENS, NO_FILE, number_in, number_names, passed, read_next};
use dm_io::Folder;
use dm_read::Steps;
use dm_reading::Reading;
use dm_readings::{definitions_with, newest};
use dm_search::Loader;
use dm_token::{List, MOST_DEFINITIONS, Memory, Stop, Unit, limit_numbers};
use std::alloc::Global;
use std::sync::ledger::Ledger;

/// The new readings of the units that read a file, whose bytes in the loader are new, each unit once; None for the others. 4,000,000,000
/// names or more count as want of memory.
///
/// # Errors
///
/// The first stop of a reading, or limit 10 where a unit has too many tokens besides those before it, at its main file, behind which the
/// other units that read the file are still read; and behind all readings limit 8, at the number that no file has.
pub fn read_again<F: Folder, L: Ledger>(
    alloc: Global,
    folder: &mut F,
    loader: &mut Loader,
    file: u32,
    units: &[Unit],
    kept: &[Reading],
    readings: &mut Steps<L>,
) -> Result<List<Option<Reading>>, Stop>
    requires room { length loader.old.names < most_names }
    requires short { All HasShortDefines units.now }
    requires paired { length kept.now ≡ length units.now }
    ensures again { (files : Files) → F.files folder.old ≡ Some files → IsReadAgain files file units.now kept.now loader.old result loader.new }

    // Whether or not the folder tells its files.
    ensures counted { result ≢ Err memory_wanted → readings.new ≡ readings.old + reader_count file kept.now }
    ensures at_most { (readings.old ≤ readings.new) × (readings.new ≤ readings.old + reader_count file kept.now) }
    ensures readers { IfOk result (AreReaders file kept.now) }
    ensures limits { IfOk result (λ news. KeepsLimits (put_in kept.now news)) }
    ensures layers { All IsLayered kept.now → IfOk result (λ news. All IsLayered (put_in kept.now news)) }
    ensures well_typed { All IsTyped kept.now → IfOk result (λ news. All IsTyped (put_in kept.now news)) }
    ensures new_typed { IfOk result (All (λ (new : Maybe One). IfSome new IsTyped)) }

    // What the loader knows stays known, and there is room for a unit more.
    ensures loader { result ≢ Err memory_wanted → StaysKnown loader.old loader.new }
    ensures roomy { result ≢ Err memory_wanted → length loader.new.names < most_names }
    ensures numbered { IsNumbered loader.new }
    // The files of the call stay: those that the loader holds are those of the folder.
    ensures served { StaysServed (F.files folder.old) loader.old loader.new }
    ensures there { AreThere (F.files folder.old) loader.old → AreThere (F.files folder.old) loader.new }

    // A fault has its cause outside, and names a file that wasn't held.
    ensures failed { (faulty : ℕ) → result ≡ Err (ReadFault faulty) → Rose (F.faults folder.old) (F.faults folder.new) }
    ensures unheld { (faulty : ℕ) → result ≡ Err (ReadFault faulty) → is_held loader.old faulty ≡ false }

    ensures files_stay { F.files folder.new ≡ F.files folder.old }
    ensures rooms_stay { (other : Sequence ℕ) → F.room folder.new other ≡ F.room folder.old other }
    ensures later { F.faults folder.old ≤ F.faults folder.new }
{
    let result = read_readers(alloc, folder, loader, file, units, kept, readings);
    number_names(loader);
    let news = result?;
    if definitions_with(alloc, kept, news.items())?.len() > MOST_DEFINITIONS {
        return Err(passed(limit_numbers::DEFINITIONS, NO_FILE));
    }
    Ok(news)
}

/// The new readings, whose tokens are counted with those of the other units, or the first stop, behind which the other units that read
/// the file are read.
fn read_readers<F: Folder, L: Ledger>(
    alloc: Global,
    folder: &mut F,
    loader: &mut Loader,
    file: u32,
    units: &[Unit],
    kept: &[Reading],
    readings: &mut Steps<L>,
) -> Result<List<Option<Reading>>, Stop>
    requires room { length loader.old.names < most_names }
    requires short { All HasShortDefines units.now }
    requires paired { length kept.now ≡ length units.now }
    ensures again { (files : Files) → F.files folder.old ≡ Some files → result ≢ Err memory_wanted →
        ReadsAgain files file units.now kept.now 0 loader.old result loader.new }
    ensures counted { result ≢ Err memory_wanted → readings.new ≡ readings.old + reader_count file kept.now }
    ensures at_most { (readings.old ≤ readings.new) × (readings.new ≤ readings.old + reader_count file kept.now) }
    ensures readers { IfOk result (AreReaders file kept.now) }
    ensures within { IfOk result (λ news. token_count (put_in kept.now news) ≤ most_project_tokens) }
    ensures layers { IfOk result (All (λ (new : Maybe One). IfSome new IsLayered)) }
    ensures well_typed { IfOk result (All (λ (new : Maybe One). IfSome new IsTyped)) }
    ensures leaves { LeavesKnown (F.files folder.old) (F.files folder.new) (F.room folder.old) (F.room folder.new) (F.faults folder.old) (F.faults folder.new) loader.old loader.new (stop_of result) }
{
    let mut news = List::new(alloc);
    let mut spent = 0;
    for at in 0..units.len() {
        let unit = &units[at];
        let reading = &kept[at];
        match read_next_again(alloc, folder, loader, file, unit, reading, spent, readings) {
            Ok(new) => {
                spent += newest(reading, &new).pp.tokens.len();
                news.push(new)?;
            }
            Err(stop) => {
                want_of_memory(stop)?;
                read_others(alloc, folder, loader, file, units, kept, at + 1, readings)?;
                return Err(stop);
            }
        }
    }
    Ok(news)
}

/// The new reading of a unit that reads the file, behind so many tokens of other units. The tokens of another are counted as they are.
fn read_next_again<F: Folder, L: Ledger>(
    alloc: Global,
    folder: &mut F,
    loader: &mut Loader,
    file: u32,
    unit: &Unit,
    kept: &Reading,
    spent: usize,
    readings: &mut Steps<L>,
) -> Result<Option<Reading>, Stop>
    requires room { length loader.old.names < most_names }
    requires short { HasShortDefines unit.now }
    requires few { spent ≤ most_project_tokens }
    ensures counted { readings.new ≡ readings.old + reader_count file (kept.now ∷ []) }
    ensures next { (files : Files) → F.files folder.old ≡ Some files →
        NextAgain (reads_file file kept.now) files unit.now kept.now spent loader.old result loader.new }
    ensures reader { IfOk result (λ new. is_some new ≡ reads_file file kept.now) }
    ensures within { IfOk result (λ new. spent + length (unwrap_or new kept.now).pp.tokens ≤ most_project_tokens) }
    ensures layers { IfOk result (λ new. IfSome new IsLayered) }
    ensures well_typed { IfOk result (λ new. IfSome new IsTyped) }
    ensures leaves { LeavesKnown (F.files folder.old) (F.files folder.new) (F.room folder.old) (F.room folder.new) (F.faults folder.old) (F.faults folder.new) loader.old loader.new (stop_of result) }
{
    if reads(kept, file) {
        match read_next(alloc, folder, loader, unit, spent, readings) {
            Ok(reading) => return Ok(Some(reading)),
            Err(stop) => return Err(stop),
        }
    }
    if kept.pp.tokens.len() > MOST_PROJECT_TOKENS - spent {
        return Err(passed(limit_numbers::PROJECT_TOKENS, number_in(loader, &unit.file)));
    }
    Ok(None)
}

/// Behind a stop the units that read the file are read from this one on, whatever that gives.
fn read_others<F: Folder, L: Ledger>(
    alloc: Global,
    folder: &mut F,
    loader: &mut Loader,
    file: u32,
    units: &[Unit],
    kept: &[Reading],
    start: usize,
    readings: &mut Steps<L>,
) -> Result<(), Memory>
    requires room { length loader.old.names < most_names }
    requires short { All HasShortDefines units.now }
    requires paired { length kept.now ≡ length units.now }
    ensures others { (files : Files) → F.files folder.old ≡ Some files →
        OnOk result (ReadsOthers files file (drop start units.now) (drop start kept.now) loader.old loader.new) }
    ensures counted { OnOk result (readings.new ≡ readings.old + reader_count file (drop start kept.now)) }
    ensures at_most { (readings.old ≤ readings.new) × (readings.new ≤ readings.old + reader_count file (drop start kept.now)) }
    ensures leaves { LeavesKnown (F.files folder.old) (F.files folder.new) (F.room folder.old) (F.room folder.new) (F.faults folder.old) (F.faults folder.new) loader.old loader.new (memory_of result) }
{
    for at in start..units.len() {
        read_other(alloc, folder, loader, file, &units[at], &kept[at], readings)?;
    }
    Ok(())
}

/// Reads a unit that reads the file, whatever that gives, and no other.
fn read_other<F: Folder, L: Ledger>(
    alloc: Global,
    folder: &mut F,
    loader: &mut Loader,
    file: u32,
    unit: &Unit,
    kept: &Reading,
    readings: &mut Steps<L>,
) -> Result<(), Memory>
    requires room { length loader.old.names < most_names }
    requires short { HasShortDefines unit.now }
    ensures counted { readings.new ≡ readings.old + reader_count file (kept.now ∷ []) }
    ensures read { (files : Files) → F.files folder.old ≡ Some files →
        OnOk result (MayRead (reads_file file kept.now) files unit.now loader.old loader.new) }
    ensures leaves { LeavesKnown (F.files folder.old) (F.files folder.new) (F.room folder.old) (F.room folder.new) (F.faults folder.old) (F.faults folder.new) loader.old loader.new (memory_of result) }
{
    if !reads(kept, file) {
        return Ok(());
    }
    match read_next(alloc, folder, loader, unit, 0, readings) {
        Ok(_) => {}
        Err(stop) => return want_of_memory(stop),
    }
    Ok(())
}

/// A stop that is want of memory; any other is passed over.
fn want_of_memory(stop: Stop) -> Result<(), Memory>
    ensures { OnOk result (stop ≢ memory_wanted) }
{
    match stop {
        Stop::Memory => Err(Memory),
        Stop::Refused(_) | Stop::Limit(_) | Stop::ReadFault(_) => Ok(()),
    }
}

/// Whether a unit's reading reads the file.
fn reads(reading: &Reading, file: u32) -> bool
    ensures { result ≡ reads_file file reading.now }
{
    reading.pp.files.items().contains(&file)
}
