//! What edits and later readings leave of a reading.

ghost use Rattle.std.specs.Prelude.{◌≡◌, ◌<◌, length, ℕ, false, true, List, Option, Some, Result, Ok, IfErr};
ghost use Rattle.std.specs.List.{AllByRecursion};
ghost use Rattle.dm_token.specs.declared.stop.Stop.{Stop};
ghost use Rattle.dm_token.specs.declared.token.Token.{Token};
ghost use Rattle.dm_token.specs.declared.unit.Unit.{Unit as Source};
ghost use Rattle.dm_io.specs.Files.{Files};
ghost use Rattle.dm_search.specs.CallFiles.{file_for};
ghost use Rattle.dm_search.specs.Loaded.{Loaded, name_of, held_at, is_held, with_bytes};
ghost use Rattle.dm_unit.specs.Loaders.{Grows, shown, stopped_at};
ghost use Rattle.dm_unit.specs.Readings.{is_among};
ghost use Rattle.dm_unit.specs.Units.{setting_of};
ghost use Rattle.dm_unit.specs.Views.{IsFaultless, StaysServed};
ghost use Rattle.dm_reading.specs.declared.reading.Reading.{Reading};
ghost use Rattle.dm_readings.specs.Reading.{IsReading, AreOneReading};
ghost use Rattle.dm_local.specs.Kept.{IsOfLoader, IsReadBy, Keeps};
ghost use Rattle.dm_local.specs.Marks.{AreListed};
ghost use Rattle.dm_local.specs.Order.{AreAscending};
ghost use Rattle.dm_local.specs.Searched.{LooksAlike};

use dm_readings::one_reading_of_unit;

/// A reading of a unit stays when other files change and when more files are known: a loader that keeps what was known, and the bytes of
/// the files that the reading reads, comes to the same reading, and learns nothing from it.
pub fn readings_stay()
    ensures { (before after : Files) (unit : Source) (old new known : Loaded) (reading : Reading) →
        IsReading (setting_of old new before unit) unit old (Ok reading) new → IsOfLoader old →
        Keeps reading.pp.files before after old new known → IsReadBy known after unit reading }
{}

/// So the reading of a unit is its reading by any later loader that has grown from there over the same files.
pub fn readings_stay_known()
    ensures { (files : Files) (unit : Source) (old new known : Loaded) (reading : Reading) (apart : Option ℕ) →
        IsReading (setting_of old new files unit) unit old (Ok reading) new → IsOfLoader old →
        Grows apart new known → ((name : List ℕ) → file_for known files name ≡ file_for old files name) →
        IsReadBy known files unit reading }
{}

/// So an edit of a file that a unit doesn't read leaves its reading as it is.
pub fn readings_stay_where_not_edited()
    ensures { (files : Files) (unit : Source) (known : Loaded) (reading : Reading) (file : ℕ) (bytes : List ℕ) →
        IsReadBy known files unit reading → IsOfLoader known → is_held known file ≡ true →
        is_among file reading.pp.files ≡ false → IsReadBy (with_bytes known file bytes) files unit reading }
{}

/// The folder's files don't matter to a loader that knows all that it looks for.
pub fn readings_hang_on_the_loader()
    ensures { (files others : Files) (unit : Source) (known : Loaded) (reading : Reading) →
        IsReadBy known files unit reading → IsOfLoader known → IsReadBy known others unit reading }
{}

/// Where a unit is read again by such a loader, the reading is the same, and the loader knows the same files.
pub fn readings_learn_nothing()
    ensures again { (files : Files) (unit : Source) (known new : Loaded) (reading again : Reading) →
        IsReadBy known files unit reading → IsReading (setting_of known new files unit) unit known (Ok again) new →
        AreOneReading (Ok reading) (Ok again) }
    ensures learned { (files : Files) (unit : Source) (known new : Loaded) (reading again : Reading) →
        IsReadBy known files unit reading → IsReading (setting_of known new files unit) unit known (Ok again) new →
        shown new ≡ shown known }
{
    // The law on which its proof rests.
    one_reading_of_unit();
}

/// What a unit's reading comes to, be it a reading or a stop, hangs on the files for which it looks alone: where other files have the same
/// for the names that are known behind it, and for that of the file at which it stopped, it comes to the same.
pub fn readings_hang_on_what_they_look_for()
    ensures { (before after : Files) (unit : Source) (old new : Loaded) (result : Result Reading Stop) →
        IsReading (setting_of old new before unit) unit old result new → IsOfLoader old → LooksAlike before after old new (stopped_at result) →
        IsReading (setting_of old new after unit) unit old result new }
{}

/// So a unit that is read over such files has the same reading, up to the numbers of its types, and one whose reading stops has the same stop.
pub fn readings_over_such_files_are_one()
    ensures { (before after : Files) (unit : Source) (old first second : Loaded) (one other : Result Reading Stop) →
        IsReading (setting_of old first before unit) unit old one first → IsReading (setting_of old second after unit) unit old other second →
        IsOfLoader old → LooksAlike before after old first (stopped_at one) → IfErr one IsFaultless → IfErr other IsFaultless → AreOneReading one other }
{
    // The law on which its proof rests.
    one_reading_of_unit();
}

/// The expansions of a unit have numbers that ascend: they are listed in the order in which they begin.
pub fn expansions_ascend()
    ensures { (files : Files) (unit : Source) (old new : Loaded) (reading : Reading) →
        IsReading (setting_of old new files unit) unit old (Ok reading) new → IsOfLoader old → AreAscending 0 reading.pp.expansions }
{}

/// Each expansion that a token of a unit came through is listed.
pub fn marks_are_listed()
    ensures { (files : Files) (unit : Source) (old new : Loaded) (reading : Reading) →
        IsReading (setting_of old new files unit) unit old (Ok reading) new → IsOfLoader old → AreListed reading.pp.expansions reading.pp.tokens }
{}

/// The file of each token of a unit has a number below the count of the names that the loader has behind the reading.
pub fn tokens_stand_in_known_files()
    ensures { (files : Files) (unit : Source) (old new : Loaded) (reading : Reading) →
        IsReading (setting_of old new files unit) unit old (Ok reading) new → IsOfLoader old →
        AllByRecursion (λ (token : Token). token.pp.place.file < length new.names) reading.pp.tokens }
{}

/// Behind the reading of a unit, by which the files of the call stay, the loader holds each file that was read, with the bytes that it had.
pub fn read_files_are_held()
    ensures { (files : Files) (unit : Source) (old new : Loaded) (reading : Reading) (file : ℕ) →
        IsReading (setting_of old new files unit) unit old (Ok reading) new → IsOfLoader old → StaysServed (Some files) old new →
        is_among file reading.pp.files ≡ true → held_at new file ≡ file_for old files (name_of new file) }
{}
