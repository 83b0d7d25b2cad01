//! What the readings of a project are, behind the first reading and behind each edit.

ghost use Rattle.std.specs.Prelude.{◌≡◌, ℕ, true, List, Option, Ok};
ghost use Rattle.dm_token.specs.declared.unit.Unit.{Unit as Source};
ghost use Rattle.dm_io.specs.Files.{Files};
ghost use Rattle.dm_search.specs.Loaded.{Loaded, is_held, with_bytes};
ghost use Rattle.dm_unit.specs.Loaders.{shown};
ghost use Rattle.dm_reading.specs.declared.reading.Reading.{Reading};
ghost use Rattle.dm_local.specs.Kept.{IsOfLoader};
ghost use Rattle.dm_readings.specs.Again.{IsReadAgain, put_in};
ghost use Rattle.dm_readings.specs.Leaves.{Follows};
ghost use Rattle.dm_readings.specs.Units.{ReadsProject, ending};
ghost use Rattle.dm_kept.specs.Current.{AreCurrent, AreSame, put_back};

use dm_local::{readings_learn_nothing, readings_stay_where_not_edited};

/// Behind the first readings of a project each unit has the reading that it has by what the loader knows then.
pub fn first_readings_are_current()
    ensures { (files : Files) (units : List Source) (old new : Loaded) (readings : List Reading) (begun : ℕ) →
        IsOfLoader old → ReadsProject files units old (ending (Ok readings) begun new) →
        IsOfLoader new × AreCurrent new files units readings × Follows files old new }
{}

/// So it has once new bytes are held for a file, and the units that read it have been read again: the others keep their readings.
pub fn readings_again_are_current()
    ensures { (files : Files) (file : ℕ) (bytes : List ℕ) (units : List Source) (kept : List Reading) (news : List (Option Reading)) (known new : Loaded) →
        IsOfLoader known → is_held known file ≡ true → AreCurrent known files units kept →
        IsReadAgain files file units kept (with_bytes known file bytes) (Ok news) new →
        IsOfLoader new × AreCurrent new files units (put_in kept news) }
{
    // The law on which its proof rests.
    readings_stay_where_not_edited();
}

/// So it has where the old bytes are put back behind such a reading: then all units keep their readings.
pub fn readings_stay_where_bytes_are_put_back()
    ensures { (files : Files) (file : ℕ) (bytes : List ℕ) (units : List Source) (kept : List Reading) (known new : Loaded) →
        IsOfLoader known → is_held known file ≡ true → AreCurrent known files units kept →
        Follows files (with_bytes known file bytes) new → IsOfLoader new →
        IsOfLoader (put_back known file new) × AreCurrent (put_back known file new) files units kept × Follows files known (put_back known file new) }
{}

/// So the reading of all units once more gives the same readings, and the loader knows the same files.
pub fn all_readings_again_are_the_same()
    ensures { (files : Files) (units : List Source) (known new : Loaded) (readings others : List Reading) (begun : ℕ) →
        IsOfLoader known → AreCurrent known files units readings → ReadsProject files units known (ending (Ok others) begun new) →
        AreSame readings others × (shown new ≡ shown known) }
{
    // The law on which its proof rests.
    readings_learn_nothing();
}
