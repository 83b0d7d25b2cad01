//! What the reading of a unit comes to is one, and what holds of the files that a loader holds.

ghost use Rattle.std.specs.Prelude.{◌≡◌, ℕ, true, List, Option, Result, IfErr};
ghost use Rattle.dm_token.specs.declared.stop.Stop.{Stop};
ghost use Rattle.dm_token.specs.declared.unit.Unit.{Unit as Source};
ghost use Rattle.dm_io.specs.Files.{Files};
ghost use Rattle.dm_search.specs.Fresh.{fresh};
ghost use Rattle.dm_search.specs.Loaded.{Loaded, is_held, with_bytes};
ghost use Rattle.dm_unit.specs.Units.{setting_of};
ghost use Rattle.dm_unit.specs.Views.{IsFaultless};
ghost use Rattle.dm_reading.specs.declared.reading.Reading.{Reading};
ghost use Rattle.dm_readings.specs.Leaves.{AreThere};
ghost use Rattle.dm_readings.specs.Reading.{IsReading, AreOneReading};

use dm_outcome::one_reading;
use dm_unit::one_outcome;

/// Two readings of a unit over the same files, by loaders that knew the same, are one, failed readings of files apart: the
/// same tokens, up to the order of the names used in conditions, the same syntax and the same typed unit, whatever numbers
/// its types have in each, or the same stop.
pub fn one_reading_of_unit()
    ensures { (files : Files) (unit : Source) (old first second : Loaded) (one other : Result Reading Stop) →
        IsReading (setting_of old first files unit) unit old one first → IsReading (setting_of old second files unit) unit old other second →
        IfErr one IsFaultless → IfErr other IsFaultless → AreOneReading one other }
{
    // The laws on which its proof rests.
    one_outcome();
    one_reading();
}

/// A new loader holds no file of the folder, and new bytes for a file that is held add none.
pub fn held_files_stay_there()
    ensures fresh { (told : Option Files) → AreThere told fresh }
    ensures replaced { (told : Option Files) (loaded : Loaded) (file : ℕ) (bytes : List ℕ) →
        is_held loaded file ≡ true → AreThere told loaded → AreThere told (with_bytes loaded file bytes) }
{}
